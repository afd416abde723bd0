#![tactic(auto)]
// The published tables: what a seat does with a message that it received or sends.
pub mod message;
pub mod state;

ghost use Rattle.std.specs.Prelude.{◌≡◌, ◌<◌, slice_index};
ghost use Rattle.rules.specs.Parts.{end_of, late_of, ends_of, again_of};
ghost use Rattle.rules.specs.Tables.{coordinator_receives, coordinator_sends, participant_receives, participant_sends};
ghost use Rattle.rules.specs.Rules.{has_state, entry_of, moves, answer, answer_of, four_of, of_four, legal};
ghost use Rattle.rules.specs.Codes.{action_number, refusal_number, direction_number};
ghost use Rattle.rules.specs.Outcome.{asked_by};
ghost use Rattle.rules.specs.Place.{place_of, entry_at};
ghost use Rattle.rules.specs.Marks.{marked_in, suiting_marks};
ghost use Rattle.rules.specs.Rows.{row_of, beyond_rows, moved_marks, legal_rows};

// What a table says of a state and a message.
#[derive(Clone, Copy, Debug, PartialEq, Eq)]
pub enum Entry {
    Invalid,
    Ignore,
    Move(u8),
    Forget(u8),
    Reply(u8),
}

// What else a seat does with an event.
#[derive(Clone, Copy, Debug, PartialEq, Eq)]
pub enum Action {
    None = 0,
    Ignore = 1,
    Reply = 2,
    Forget = 3,
}

// Why an event is refused.
#[derive(Clone, Copy, Debug, PartialEq, Eq)]
pub enum Refusal {
    NoSeat = 11,
    Event = 12,
    Way = 13,
    InvalidState = 14,
    Outcome = 15,
}

// An outcome of an atomic activity.
#[derive(Clone, Copy, Debug, PartialEq, Eq)]
pub enum Direction {
    Close = 1,
    Compensate = 2,
}

// An answer in the outline's numbers: the four bytes that C gets. `run::read_answer` reads one from any bytes, so its fields are numbers.
#[derive(Clone, Copy, Debug, PartialEq, Eq)]
pub struct Answer {
    pub refusal: u8,
    pub state: u8,
    pub action: u8,
    pub reply: u8,
}

impl From<[u8; 4]> for Answer {
    ghost from_gives = { λ four a. a ≡ of_four four };

    fn from(four: [u8; 4]) -> Answer {
        let [refusal, state, action, reply] = four;
        Answer {
            refusal,
            state,
            action,
            reply,
        }
    }
}

impl From<Answer> for [u8; 4] {
    ghost from_gives = { λ a four. four ≡ four_of a };

    fn from(a: Answer) -> [u8; 4] {
        [a.refusal, a.state, a.action, a.reply]
    }
}

// An answer's refusal where there is none. An answer's refusal may be any byte (see `Answer`), so it is a number.
pub const GOOD: u8 = 0;

// An activity's direction where it has none. A book's byte may be any, so it is a number.
pub const DIRECTION_NONE: u8 = 0;

// A role may be any byte of a book, and `entry_at` answers for each: so these are numbers.
pub const COORDINATOR: u8 = 1;

pub const PARTICIPANT: u8 = 2;

// A table may be any byte of a book, and `entry_at` answers for each: so these are numbers.
pub const PLAIN: u8 = 1;

pub const SPLIT: u8 = 2;

// A way may be any byte of an event, and `entry_at` answers for each: so these are numbers.
pub const RECEIVED: u8 = 0;

pub const SENT: u8 = 1;

// A bit each (see `marked`): the states of a role under a table, and those of them that suit a direction of an atomic activity.
pub const STATES: u64 = 0xfff6_1ff6_fffe_1ffe;

const STATES_UNDIRECTED: u64 = 0xfff6_1ff6_fd3e_1d3e;

const STATES_TO_CLOSE: u64 = 0xfff6_1ff6_fd7e_1d7e;

const STATES_TO_COMPENSATE: u64 = 0xfff6_1ff6_ffbe_1fbe;

// What takes role, table and state, a byte each, to the number of their bit, 16 bits up: states stay, tables go 12 bits on, roles 21.
const SPREAD: u64 = 0x20_1001;

// The first role and the first table, as they stand in that number.
const FIRSTS: u64 = 257;

// The ended state that a seat comes to: `home` in the split table.
fn end(split: bool, home: u8) -> u8
    ensures { result ≡ end_of home split }
{
    if split { home } else { state::ENDED }
}

// An ended seat's last word again, where the state tells that it was the last.
fn late(split: bool, at: u8, home: u8, word: u8) -> Entry
    ensures { result ≡ late_of home word split at }
{
    if at == end(split, home) {
        Entry::Reply(word)
    } else if split {
        Entry::Ignore
    } else {
        Entry::Invalid
    }
}

// A send that ends the seat.
fn ends(split: bool, home: u8) -> Entry
    ensures { result ≡ ends_of home split }
{
    Entry::Forget(end(split, home))
}

// The same send again.
fn again(split: bool, at: u8, home: u8) -> Entry
    ensures { result ≡ again_of home split at }
{
    if at == end(split, home) {
        Entry::Move(at)
    } else {
        Entry::Invalid
    }
}

// Matches on message numbers and state ranges, for any message. The table is one bit of a place, so the four rules are told it by a `bool`.
// Each of the four asks `s < 16` for itself: each is one table, and a seat's state is a place's low four bits.
#[tactic(auto, unfolding(crate::specs::Tables::coordinator_receives))]
fn coordinator_receives(split: bool, m: u8, s: u8) -> Entry
    requires { s < 16 }
    ensures { result ≡ coordinator_receives split m s }
{
    match m {
        message::EXIT => match s {
            state::ACTIVE..=state::COMPLETING => Entry::Move(state::EXITING),
            state::EXITING => Entry::Ignore,
            state::ENDED..=state::LAST => late(split, s, state::ENDED_EXITED, message::EXITED),
            _ => Entry::Invalid,
        },
        message::COMPLETED => match s {
            state::CANCELING_COMPLETING..=state::COMPLETING => Entry::Move(state::COMPLETED),
            state::COMPLETED | state::FAILING_COMPENSATING | state::ENDED..=state::LAST =>
                Entry::Ignore,
            state::CLOSING => Entry::Reply(message::CLOSE),
            state::COMPENSATING => Entry::Reply(message::COMPENSATE),
            _ => Entry::Invalid,
        },
        message::FAIL => match s {
            state::ACTIVE..=state::COMPLETING => Entry::Move(state::FAILING),
            state::COMPENSATING => Entry::Move(state::FAILING_COMPENSATING),
            state::FAILING..=state::FAILING_COMPENSATING => Entry::Ignore,
            state::ENDED..=state::LAST => late(split, s, state::ENDED_FAILED, message::FAILED),
            _ => Entry::Invalid,
        },
        message::CANNOT_COMPLETE => match s {
            state::ACTIVE..=state::COMPLETING => Entry::Move(state::NOT_COMPLETING),
            state::NOT_COMPLETING => Entry::Ignore,
            state::ENDED..=state::LAST => late(
                split,
                s,
                state::ENDED_NOT_COMPLETED,
                message::NOT_COMPLETED,
            ),
            _ => Entry::Invalid,
        },
        message::CANCELED => match s {
            state::CANCELING..=state::CANCELING_COMPLETING => Entry::Forget(state::ENDED),
            state::ENDED..=state::LAST => Entry::Ignore,
            _ => Entry::Invalid,
        },
        message::CLOSED => match s {
            state::CLOSING => Entry::Forget(state::ENDED),
            state::ENDED..=state::LAST => Entry::Ignore,
            _ => Entry::Invalid,
        },
        message::COMPENSATED => match s {
            state::COMPENSATING => Entry::Forget(state::ENDED),
            state::ENDED..=state::LAST => Entry::Ignore,
            _ => Entry::Invalid,
        },
        _ => Entry::Invalid,
    }
}

#[tactic(auto, unfolding(crate::specs::Tables::coordinator_sends))]
fn coordinator_sends(split: bool, m: u8, s: u8) -> Entry
    requires { s < 16 }
    ensures { result ≡ coordinator_sends split m s }
{
    match m {
        message::CANCEL => match s {
            state::ACTIVE..=state::CANCELING => Entry::Move(state::CANCELING),
            state::CANCELING_COMPLETING..=state::COMPLETING => Entry::Move(
                state::CANCELING_COMPLETING,
            ),
            _ => Entry::Invalid,
        },
        message::COMPLETE => match s {
            state::ACTIVE | state::COMPLETING => Entry::Move(state::COMPLETING),
            _ => Entry::Invalid,
        },
        message::CLOSE => match s {
            state::COMPLETED..=state::CLOSING => Entry::Move(state::CLOSING),
            _ => Entry::Invalid,
        },
        message::COMPENSATE => match s {
            state::COMPLETED | state::COMPENSATING => Entry::Move(state::COMPENSATING),
            _ => Entry::Invalid,
        },
        message::FAILED => match s {
            state::FAILING..=state::FAILING_COMPENSATING => ends(split, state::ENDED_FAILED),
            state::ENDED..=state::LAST => again(split, s, state::ENDED_FAILED),
            _ => Entry::Invalid,
        },
        message::EXITED => match s {
            state::EXITING => ends(split, state::ENDED_EXITED),
            state::ENDED..=state::LAST => again(split, s, state::ENDED_EXITED),
            _ => Entry::Invalid,
        },
        message::NOT_COMPLETED => match s {
            state::NOT_COMPLETING => ends(split, state::ENDED_NOT_COMPLETED),
            state::ENDED..=state::LAST => again(split, s, state::ENDED_NOT_COMPLETED),
            _ => Entry::Invalid,
        },
        _ => Entry::Invalid,
    }
}

#[tactic(auto, unfolding(crate::specs::Tables::participant_receives))]
fn participant_receives(split: bool, m: u8, s: u8) -> Entry
    requires { s < 16 }
    ensures { result ≡ participant_receives split m s }
{
    match m {
        message::CANCEL => match s {
            state::ACTIVE | state::COMPLETING => Entry::Move(state::CANCELING),
            state::CANCELING | state::CLOSING..=state::COMPENSATING | state::FAILING_COMPENSATING =>
                Entry::Ignore,
            state::COMPLETED => Entry::Reply(message::COMPLETED),
            state::FAILING => Entry::Reply(message::FAIL),
            state::NOT_COMPLETING => Entry::Reply(message::CANNOT_COMPLETE),
            state::EXITING => Entry::Reply(message::EXIT),
            state::ENDED..=state::LAST => late(split, s, state::ENDED_CANCELED, message::CANCELED),
            _ => Entry::Invalid,
        },
        message::COMPLETE => match s {
            state::ACTIVE => Entry::Move(state::COMPLETING),
            state::CANCELING
            | state::COMPLETING
            | state::CLOSING..=state::COMPENSATING
            | state::FAILING_COMPENSATING => Entry::Ignore,
            state::COMPLETED => Entry::Reply(message::COMPLETED),
            state::FAILING => Entry::Reply(message::FAIL),
            state::NOT_COMPLETING => Entry::Reply(message::CANNOT_COMPLETE),
            state::EXITING => Entry::Reply(message::EXIT),
            state::ENDED => if split {
                Entry::Ignore
            } else {
                Entry::Reply(message::FAIL)
            },
            state::ENDED_CANCELED..=state::LAST => if split {
                Entry::Reply(message::FAIL)
            } else {
                Entry::Invalid
            },
            _ => Entry::Invalid,
        },
        message::CLOSE => match s {
            state::COMPLETED => Entry::Move(state::CLOSING),
            state::CLOSING => Entry::Ignore,
            state::ENDED..=state::LAST => late(split, s, state::ENDED_CLOSED, message::CLOSED),
            _ => Entry::Invalid,
        },
        message::COMPENSATE => match s {
            state::COMPLETED => Entry::Move(state::COMPENSATING),
            state::COMPENSATING => Entry::Ignore,
            state::FAILING_COMPENSATING => Entry::Reply(message::FAIL),
            state::ENDED..=state::LAST => late(
                split,
                s,
                state::ENDED_COMPENSATED,
                message::COMPENSATED,
            ),
            _ => Entry::Invalid,
        },
        message::FAILED => match s {
            state::FAILING..=state::FAILING_COMPENSATING => Entry::Forget(state::ENDED),
            state::ENDED..=state::LAST => Entry::Ignore,
            _ => Entry::Invalid,
        },
        message::EXITED => match s {
            state::EXITING => Entry::Forget(state::ENDED),
            state::ENDED..=state::LAST => Entry::Ignore,
            _ => Entry::Invalid,
        },
        message::NOT_COMPLETED => match s {
            state::NOT_COMPLETING => Entry::Forget(state::ENDED),
            state::ENDED..=state::LAST => Entry::Ignore,
            _ => Entry::Invalid,
        },
        _ => Entry::Invalid,
    }
}

#[tactic(auto, unfolding(crate::specs::Tables::participant_sends))]
fn participant_sends(split: bool, m: u8, s: u8) -> Entry
    requires { s < 16 }
    ensures { result ≡ participant_sends split m s }
{
    match m {
        message::EXIT => match s {
            state::ACTIVE | state::COMPLETING | state::EXITING => Entry::Move(state::EXITING),
            _ => Entry::Invalid,
        },
        message::COMPLETED => match s {
            state::COMPLETING..=state::COMPLETED => Entry::Move(state::COMPLETED),
            _ => Entry::Invalid,
        },
        message::FAIL => match s {
            state::ACTIVE..=state::CANCELING | state::COMPLETING | state::FAILING => Entry::Move(
                state::FAILING,
            ),
            state::COMPENSATING | state::FAILING_COMPENSATING => Entry::Move(
                state::FAILING_COMPENSATING,
            ),
            _ => Entry::Invalid,
        },
        message::CANNOT_COMPLETE => match s {
            state::ACTIVE | state::COMPLETING | state::NOT_COMPLETING => Entry::Move(
                state::NOT_COMPLETING,
            ),
            _ => Entry::Invalid,
        },
        message::CANCELED => match s {
            state::CANCELING => ends(split, state::ENDED_CANCELED),
            state::ENDED..=state::LAST => again(split, s, state::ENDED_CANCELED),
            _ => Entry::Invalid,
        },
        message::CLOSED => match s {
            state::CLOSING => ends(split, state::ENDED_CLOSED),
            state::ENDED..=state::LAST => again(split, s, state::ENDED_CLOSED),
            _ => Entry::Invalid,
        },
        message::COMPENSATED => match s {
            state::COMPENSATING => ends(split, state::ENDED_COMPENSATED),
            state::ENDED..=state::LAST => again(split, s, state::ENDED_COMPENSATED),
            _ => Entry::Invalid,
        },
        _ => Entry::Invalid,
    }
}

// Whether a role, a table and a state have their bit among 64 marks: bit 32 role + 16 table + state, counted from the first of each.
// The three are looked at as one number, for a walk over seats has no time for three.
// Here, in `has_state`, `place` and `entry_at` they stay arguments: a seat holds more, so a struct of them would be made for calls alone.
#[tactic(auto, using(crate::proofs::Places::marking))]
pub fn marked(marks: u64, role: u8, table: u8, s: u8) -> bool
    ensures { result ≡ marked_in marks role table s }
{
    let three = role as u64 + 256 * (table as u64) + 65536 * (s as u64);
    let x = three.wrapping_sub(FIRSTS);
    if (x % 256 <= 1) & (x / 256 % 256 <= 1) & (x < 1048576) {
        let at = x * SPREAD / 65536 % 64;
        return (marks >> at) % 2 == 1;
    }
    false
}

// Whether a role has a state under a table.
#[tactic(auto, using(crate::specs::Marks::states_marked))]
pub fn has_state(role: u8, table: u8, s: u8) -> bool
    ensures { result ≡ has_state role table s }
{
    marked(STATES, role, table, s)
}

// The states that a seat of an atomic activity with that direction may have.
// It answers for any direction: `suiting_marks` says so for every number, and a narrower type would ask more of callers.
pub fn suiting(direction: u8) -> u64
    ensures { result ≡ suiting_marks direction }
{
    if direction == Direction::Close as u8 {
        STATES_TO_CLOSE
    } else if direction == Direction::Compensate as u8 {
        STATES_TO_COMPENSATE
    } else {
        STATES_UNDIRECTED
    }
}

// A seat's place: its role, table and state as one number below 64, as `marked` counts the bits of role, table and state.
pub fn place(role: u8, table: u8, s: u8) -> u64
    ensures { result ≡ place_of role table s }
{
    (32 * (role as u64) + 16 * (table as u64) + s as u64 + 16) % 64
}

// A message that goes some way has one of 32 rows, if it has any. They are counted from the message `CANCELED`.
// Way and message stay arguments, here and below: an event holds a seat too, so a struct of the two would be made for calls alone.
fn row(way: u8, m: u8) -> u64
    ensures { result ≡ row_of way m }
{
    (2 * (m as u64) + way as u64 + 8) % 32
}

// 0 for a way and a message that have a row, else more: so `beyond < mark` asks both, whether there is a row and whether its mark is 1.
fn beyond(way: u8, m: u8) -> u64
    ensures { result ≡ beyond_rows way m }
{
    (way / 2 + m / 16) as u64
}

// The rows of the messages that a role moves, and none for 0.
const MOVED: [u64; 3] = [0, 0x55aa_a815, 0xaa55_542a];

// The same for any role. A match on the two roles would be a jump that no processor foresees.
fn moved_marks(role: u8) -> u64
    ensures { result ≡ moved_marks role }
{
    MOVED.get(role as usize).copied().unwrap_or(0)
}

// Whether a role moves a message that way.
#[tactic(auto, using(crate::specs::Rows::moved_marked))]
pub fn moves_message(role: u8, way: u8, m: u8) -> bool
    ensures { result ≡ moves role way m }
{
    beyond(way, m) < (moved_marks(role) >> row(way, m)) % 2
}

// The places at which a row's message is legal.
const LEGAL: [u64; 32] = [
    0xf00c_f00c,
    0x2004_1004_0000_0000,
    0xf040_f040,
    0x4040_1040_0000_0000,
    0xf080_f080,
    0x8080_1080_0000_0000,
    0,
    0,
    0,
    0,
    0xfff6_1ff6_0000_0000,
    0x1e_001e,
    0xfff6_1ff6_0000_0000,
    0x12_0012,
    0xf060_1060_0000_0000,
    0x60_0060,
    0xf2a0_12a0_0000_0000,
    0xa0_00a0,
    0xf300_f300_0000_0000,
    0x2300_1300,
    0xf800_f800_0000_0000,
    0x4800_1800,
    0xf400_f400_0000_0000,
    0x8400_1400,
    0xf81e_181e,
    0x812_0812_0000_0000,
    0xf2f8_f2f8,
    0x30_0030_0000_0000,
    0xf39e_139e,
    0x396_0396_0000_0000,
    0xf41e_141e,
    0x412_0412_0000_0000,
];

// Whether the tables' lines have the message at a place, be it a state's or not.
#[tactic(auto, using(crate::specs::Rows::legal_marked))]
pub fn is_listed(place: u64, way: u8, m: u8) -> bool
    ensures { result ≡ legal (entry_at place way m) }
{
    beyond(way, m) < (LEGAL[row(way, m) as usize] >> (place % 64)) % 2
}

// What the tables' lines say at a place, be it a state's or not.
// A place is one number below 64, as `is_listed` takes it: so a run asks a seat for its role, table and state once.
#[tactic(auto, unfolding(crate::specs::Place::entry_at, crate::specs::Rules::line_of))]
pub fn placed_entry(place: u64, way: u8, m: u8) -> Entry
    ensures { result ≡ entry_at place way m }
{
    let split = place / 16 % 2 == 1;
    let s = (place % 16) as u8;
    let coordinator = place / 32 % 2 == 0;
    match (way, coordinator) {
        (RECEIVED, true) => coordinator_receives(split, m, s),
        (RECEIVED, false) => participant_receives(split, m, s),
        (SENT, true) => coordinator_sends(split, m, s),
        (SENT, false) => participant_sends(split, m, s),
        _ => Entry::Invalid,
    }
}

// What the tables say, for any role, table, way, message and state.
#[tactic(auto, using(crate::specs::Place::place_entry), unfolding(crate::specs::Rules::entry_of))]
pub fn entry_at(role: u8, table: u8, way: u8, m: u8, s: u8) -> Entry
    ensures { result ≡ entry_of role table way m s }
{
    if !has_state(role, table, s) {
        return Entry::Invalid;
    }
    placed_entry(place(role, table, s), way, m)
}

impl Refusal {
    // The answer to a refused event, at a seat in state `state`.
    pub fn answer(self, state: u8) -> Answer
        ensures { result ≡ answer (refusal_number self) state 0 0 }
    {
        Answer {
            refusal: self as u8,
            state,
            action: Action::None as u8,
            reply: 0,
        }
    }
}

impl Entry {
    // An entry in the outline's numbers, at a seat in state `s`.
    pub fn answer(self, s: u8) -> Answer
        ensures { result ≡ answer_of self s }
    {
        match self {
            Entry::Invalid => Refusal::InvalidState.answer(s),
            Entry::Ignore => done(s, Action::Ignore, 0),
            Entry::Move(next) => done(next, Action::None, 0),
            Entry::Forget(next) => done(next, Action::Forget, 0),
            Entry::Reply(m) => done(s, Action::Reply, m),
        }
    }
}

// The answer to an event that is not refused.
fn done(state: u8, action: Action, reply: u8) -> Answer
    ensures { result ≡ answer 0 state (action_number action) reply }
{
    Answer {
        refusal: GOOD,
        state,
        action: action as u8,
        reply,
    }
}

// The direction that a coordinator's message asks of an atomic activity.
// No processor foresees which of two it is: one test tells them from none, where a match of three arms would be two jumps.
#[tactic(auto, unfolding(crate::specs::Outcome::asked_by))]
pub fn direction_asked(m: u8) -> Option<Direction>
    ensures { direction_number result ≡ asked_by m }
{
    if (m == message::CLOSE) | (m == message::COMPENSATE) {
        return Some(if m == message::CLOSE {
            Direction::Close
        } else {
            Direction::Compensate
        });
    }
    None
}
