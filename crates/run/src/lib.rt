#![tactic(auto)]
// One event, and a run over an event list.
ghost use Rattle.std.specs.Prelude.{◌≡◌, ◌+◌, ◌*◌, ◌≤◌, ◌<◌, length};
ghost use Rattle.records.specs.Records.{placed, first_events};
ghost use Rattle.rules.specs.Codes.{refusal_number, direction_number};
ghost use Rattle.book.specs.Layout.{activity_count, seat_count, activity_of, seat_of, moved, Shaped};
ghost use Rattle.book.specs.Book.{book_refusal};
ghost use Rattle.run.specs.declared.Refusal.TheVariants.{Book};
ghost use Rattle.run.specs.Step.{known, unlisted_number, wanted, clashes, turned, answer_to, book_after, answer_bytes, answer_at};
ghost use Rattle.run.specs.Run.{after, filled, run_refusal, run_book, run_answers};
ghost use Rattle.run.specs.Codes.{number, number_of};

use book::{Activity, Book};
use records::Event;
use rules::{Answer, Direction};

// Why a run is refused: what is wrong with its book, or with its list or its area.
#[derive(Clone, Copy, Debug, PartialEq, Eq)]
pub enum Refusal {
    Book(book::Refusal),
    EventList,
    AnswerArea,
}

impl Refusal {
    // The number that says a refusal.
    pub fn number(self) -> u8
        ensures { result ≡ number self }
    {
        match self {
            Refusal::Book(refusal) => refusal as u8,
            Refusal::EventList => 6,
            Refusal::AnswerArea => 7,
        }
    }
}

impl From<book::Refusal> for Refusal {
    ghost from_gives = { λ r e. e ≡ Book r };

    fn from(refusal: book::Refusal) -> Refusal {
        Refusal::Book(refusal)
    }
}

// The number of a run's result, as C gets it: 0 where nothing is refused.
pub fn number_of(worked: Result<(), Refusal>) -> u8
    ensures { result ≡ number_of worked }
{
    worked.err().map_or(0, Refusal::number)
}

pub const EVENTS_MOST: usize = records::EVENTS_MOST;

pub const ANSWER_SIZE: usize = 4;

// Whether a way and a message are the outline's. The two stay arguments here and below, as in `rules::row`.
#[tactic(auto, unfolding(crate::specs::Step::known))]
fn is_known(way: u8, m: u8) -> bool
    ensures { result ≡ known way m }
{
    (way <= rules::SENT) & (rules::message::CANCEL <= m) & (m <= rules::message::COMPENSATED)
}

// Why an event is refused that the tables do not list. Which test fails no processor foresees, so how many pass is a sum and no jump.
#[tactic(auto, using(crate::proofs::Ends::moves_known), unfolding(crate::specs::Step::unlisted_number))]
fn unlisted(role: u8, way: u8, m: u8) -> rules::Refusal
    ensures { refusal_number result ≡ unlisted_number role way m }
{
    match is_known(way, m) as u8 + rules::moves_message(role, way, m) as u8 {
        0 => rules::Refusal::Event,
        1 => rules::Refusal::Way,
        _ => rules::Refusal::InvalidState,
    }
}

// The direction that an event asks of its activity: only an atomic one has any.
#[tactic(auto, unfolding(crate::specs::Step::wanted, crate::specs::Step::asked))]
fn want(y: Activity, role: u8, way: u8, m: u8) -> Option<Direction>
    ensures { direction_number result ≡ wanted y.kind role way m }
{
    if (y.kind == book::ATOMIC) & (way == rules::SENT) & (role == rules::COORDINATOR) {
        return rules::direction_asked(m);
    }
    None
}

// Whether the activity has one direction and the other is asked for. `clashes` is of any byte of a book, so the first is a number.
#[tactic(auto, unfolding(crate::specs::Step::clashes))]
fn clash(direction: u8, want: Option<Direction>) -> bool
    ensures { result ≡ clashes direction (direction_number want) }
{
    match want {
        None => false,
        Some(asked) => (direction != rules::DIRECTION_NONE) & (direction != asked as u8),
    }
}

// The seat's state is stored, and the direction that its activity gets.
#[tactic(auto, using(book::specs::Lens::moved_kept), unfolding(crate::specs::Step::turned))]
fn turn(book: &mut [u8], n: usize, k: usize, state: u8, direction: Option<Direction>)
    requires shaped { Shaped book.old }
    requires n_bound { n < seat_count book.old }
    requires k_value { (k ≡ (seat_of book.old n).activity) × (k < activity_count book.old) }
    ensures { book.new ≡ moved book.old n state (turned (activity_of book.old k).direction (direction_number direction)) }
{
    match direction {
        None => book::put_state(book, n, state),
        Some(direction) => book::put_outcome(book, n, k, state, direction as u8),
    }
}

// One event.
#[tactic(auto, using(crate::proofs::Ends::ends))]
fn step(book: &mut [u8], e: Event) -> Answer
    requires { book_refusal book.old ≡ 0 }
    ensures answer { result ≡ answer_to book.old e }
    ensures after { book.new ≡ book_after book.old e }
{
    let view = Book::of(book);
    let n = e.seat;
    if view.seat_count() <= n {
        return rules::Refusal::NoSeat.answer(0);
    }
    let x = view.seat(n);
    let place = rules::place(x.role, x.table, x.state);
    if !rules::is_listed(place, e.way, e.message) {
        return unlisted(x.role, e.way, e.message).answer(x.state);
    }
    let k = x.activity;
    let y = view.activity(k);
    let asks = want(y, x.role, e.way, e.message);
    if clash(y.direction, asks) {
        return rules::Refusal::Outcome.answer(x.state);
    }
    let entry = rules::placed_entry(place, e.way, e.message);
    let q = entry.answer(x.state);
    turn(book, n, k, q.state, asks);
    q
}

// Answer `n` of an area. One function for events too would promise by `From` alone, so `read_event` and this one would still stand.
#[tactic(auto, unfolding(crate::specs::Step::answer_at))]
pub fn read_answer(answers: &[u8], n: usize) -> Answer
    requires { 4 * n + 4 ≤ length answers.now }
    ensures { result ≡ answer_at answers.now n }
{
    let at = ANSWER_SIZE * n;
    Answer::from([
        answers[at],
        answers[at + 1],
        answers[at + 2],
        answers[at + 3],
    ])
}

fn put_answer(area: &mut [u8], n: usize, a: Answer)
    requires { 4 * n + 4 ≤ length area.old }
    ensures { area.new ≡ placed area.old (4 * n) (answer_bytes a) }
{
    records::put_four(area, ANSWER_SIZE * n, a.into());
}

// The first `count` events of a list, at a good book. Events and answers are records in lent bytes, so both go by their number.
// The count is handed on, since `run` has judged it: a length would be divided again.
// That it is good is a clause, here and at `step`: the book is lent bytes, and each turn keeps them good (`still_good`).
#[tactic(auto, using(crate::proofs::Turns::still_good, crate::proofs::Turns::turn_book, crate::proofs::Turns::turn_area))]
fn work(book: &mut [u8], events: &[u8], area: &mut [u8], count: usize)
    requires book_value { book_refusal book.old ≡ 0 }
    requires count_in_bounds { (4 * count ≤ length events.now) × (4 * count ≤ length area.old) }
    ensures book { book.new ≡ after book.old (first_events events.now count) }
    ensures area { area.new ≡ filled book.old events.now area.old count }
{
    for i in 0..count {
        let a = step(book, records::read_event(events, i));
        put_answer(area, i, a);
    }
}

// Works an event list: the book is moved, and each event's answer stands in the area.
#[tactic(auto, unfolding(crate::specs::Run::run_refusal, crate::specs::Run::run_book, crate::specs::Run::run_answers))]
pub fn run(book: &mut [u8], events: &[u8], area: &mut [u8]) -> Result<(), Refusal>
    ensures result { number_of result ≡ run_refusal book.old events.now area.old }
    ensures book { book.new ≡ run_book book.old events.now area.old }
    ensures area { area.new ≡ run_answers book.old events.now area.old }
{
    book::check(book)?;
    let count = events.len() / records::EVENT_SIZE;
    if events.len() % records::EVENT_SIZE != 0 {
        return Err(Refusal::EventList);
    }
    if EVENTS_MOST < count {
        return Err(Refusal::EventList);
    }
    if area.len() < events.len() {
        return Err(Refusal::AnswerArea);
    }
    work(book, events, area, count);
    Ok(())
}
