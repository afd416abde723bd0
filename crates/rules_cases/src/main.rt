#![tactic(auto)]
// Prints what `rules` answers: every place of the tables, then roles, tables, ways, messages and states out of range too.
use rules::{
    Answer, COORDINATOR, Direction, PARTICIPANT, PLAIN, RECEIVED, SENT, SPLIT, message, state,
};
use show::{line_end, number, space, text};

// What is asked of, some of it out of range.
const ROLES: [u8; 6] = [0, 1, 2, 3, 128, 255];

const TABLES: [u8; 5] = [0, 1, 2, 3, 255];

const WAYS: [u8; 4] = [0, 1, 2, 255];

const MESSAGES: [u8; 19] = [
    0, 1, 2, 3, 4, 5, 6, 7, 8, 9, 10, 11, 12, 13, 14, 15, 16, 128, 255,
];

// As `run::ANSWER_SIZE`: this program asks `rules` alone and stands on no run.
// An answer's bytes: there is one for each state, as many for each message, and as many for each way.
const ANSWER_SIZE: usize = 4;

const MESSAGE_SIZE: usize = ANSWER_SIZE * 256;

const WAY_SIZE: usize = MESSAGE_SIZE * MESSAGES.len();

const ANSWERS_SIZE: usize = WAY_SIZE * WAYS.len();

fn main() {
    tables();
    let mut area = [0; ANSWERS_SIZE];
    for_pairs(&TABLES, |role, table| all_answers(role, table, &mut area));
    for_pairs(&TABLES, |role, table| {
        listing(b"states ", role, table, rules::has_state)
    });
    for_pairs(&WAYS, |role, way| {
        listing(b"moves ", role, way, rules::moves_message)
    });
    directions(b"needed:", needed_by);
    directions(b"asked:", rules::direction_asked);
}

// Each role with each table or way.
fn for_pairs<F: FnMut(u8, u8)>(others: &[u8], mut visit: F)
    requires { F.IsAlwaysCallable visit }
{
    for role in ROLES {
        for_others(role, others, &mut visit);
    }
}

fn for_others<F: FnMut(u8, u8)>(role: u8, others: &[u8], visit: &mut F)
    requires { F.IsAlwaysCallable visit.old }
    ensures { F.IsAlwaysCallable visit.new }
{
    for other in others {
        visit(role, *other);
    }
}

fn byte(x: u8) {
    number(usize::from(x));
}

fn pair(title: &[u8], role: u8, other: u8) {
    text(title);
    byte(role);
    space();
    byte(other);
}

fn answer(role: u8, table: u8, way: u8, m: u8, s: u8) -> Answer {
    rules::entry_at(role, table, way, m, s).answer(s)
}

// Every role, table, way and message of the paper: a line of the states 1 to 15.
// Each walk adds one of them to the arguments, so a struct of them would be made anew at each.
fn tables() {
    for role in [COORDINATOR, PARTICIPANT] {
        tables_of(role);
    }
}

fn tables_of(role: u8) {
    for table in [PLAIN, SPLIT] {
        ways_of(role, table);
    }
}

fn ways_of(role: u8, table: u8) {
    for way in [RECEIVED, SENT] {
        messages_of(role, table, way);
    }
}

fn messages_of(role: u8, table: u8, way: u8) {
    for m in message::CANCEL..=message::COMPENSATED {
        row(role, table, way, m);
    }
}

fn row(role: u8, table: u8, way: u8, m: u8) {
    pair(b"", role, table);
    space();
    byte(way);
    space();
    byte(m);
    text(b":");
    for s in state::ACTIVE..=state::LAST {
        dotted(answer(role, table, way, m, s));
    }
    line_end();
}

fn dotted(a: Answer) {
    space();
    byte(a.refusal);
    text(b".");
    byte(a.state);
    text(b".");
    byte(a.action);
    text(b".");
    byte(a.reply);
}

// How many places are legal, and the sum of all answers.
fn all_answers(role: u8, table: u8, area: &mut [u8]) {
    put_ways(role, table, area);
    pair(b"legal ", role, table);
    space();
    number(legal_count(area));
    space();
    show::sum(area);
    line_end();
}

// The bytes of all answers: ways, messages and states, each in order.
fn put_ways(role: u8, table: u8, area: &mut [u8]) {
    for (way, part) in WAYS.into_iter().zip(area.chunks_mut(WAY_SIZE)) {
        put_messages(role, table, way, part);
    }
}

fn put_messages(role: u8, table: u8, way: u8, area: &mut [u8]) {
    for (m, part) in MESSAGES.into_iter().zip(area.chunks_mut(MESSAGE_SIZE)) {
        put_states(role, table, way, m, part);
    }
}

fn put_states(role: u8, table: u8, way: u8, m: u8, area: &mut [u8]) {
    let (records, _) = area.as_chunks_mut::<ANSWER_SIZE>();
    for (s, record) in (0..=255).zip(records) {
        *record = answer(role, table, way, m, s).into();
    }
}

fn legal_count(area: &[u8]) -> usize {
    let (records, _) = area.as_chunks::<ANSWER_SIZE>();
    records
        .iter()
        .filter(|record| Answer::from(**record).refusal == rules::GOOD)
        .count()
}

// A line of the states or messages that a test of a role and one thing more has.
fn listing<F: Fn(u8, u8, u8) -> bool>(title: &[u8], role: u8, other: u8, has: F)
    requires { F.IsAlwaysCallable has }
{
    pair(title, role, other);
    text(b":");
    for n in 0..=255 {
        if has(role, other, n) {
            space();
            byte(n);
        }
    }
    line_end();
}

// A line of what has a direction, each with its own.
fn directions<F: Fn(u8) -> Option<Direction>>(title: &[u8], direction_of: F)
    requires { F.IsAlwaysCallable direction_of }
{
    text(title);
    for n in 0..=255 {
        if let Some(direction) = direction_of(n) {
            space();
            byte(n);
            text(b".");
            byte(direction as u8);
        }
    }
    line_end();
}

// Whether a coordinator of an atomic activity with that direction may be in that state: a number, as `rules::suiting` takes any.
fn suits(direction: u8, s: u8) -> bool {
    rules::marked(rules::suiting(direction), COORDINATOR, SPLIT, s)
}

// The direction that a state needs: one that it suits, unless it suits an activity without. What is no state suits neither.
fn needed_by(s: u8) -> Option<Direction> {
    if suits(rules::DIRECTION_NONE, s) {
        return None;
    }
    [Direction::Close, Direction::Compensate]
        .into_iter()
        .find(|direction| suits(*direction as u8, s))
}
