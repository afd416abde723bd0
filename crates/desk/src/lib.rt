#![tactic(auto)]
// The program's desk: from its whole input, a book and then a journal, to the whole text that it prints.
ghost use Rattle.std.specs.Prelude.{◌≡◌, ◌∷◌, [], ◌++◌, ◌+◌, ◌*◌, ◌/◌, ◌%◌, ◌≤◌, ◌<◌, length, drop, MatchResult};
ghost use Rattle.records.specs.Records.{events_of};
ghost use Rattle.book.specs.Layout.{seat_count};
ghost use Rattle.book.specs.Book.{book_refusal};
ghost use Rattle.run.specs.Run.{after};
ghost use Rattle.text.specs.Text.{number_most};
ghost use Rattle.text.specs.Page.{HasRoom, Wrote};
ghost use Rattle.desk.specs.Desk.{ending, ending_most, FewDigits, records_most, event_line_most, seat_line_most, report_most, event_line, event_lines, seat_lines, answers_in, listed, listing, printed, report_of, input_after};
ghost use Rattle.desk.specs.Ends.{refused_as, LineFits, Refuses, Works};

use book::{Book, Head};
use line::{NEWLINE, SPACE};
use records::Event;
use rules::Answer;
use text::Page;

// As many bytes as the records of 4,096 events have, or their answers.
const RECORDS_MOST: usize = records::EVENT_SIZE * run::EVENTS_MOST;

// The book's line and those of 4,096 events and 4,096 seats, each at its longest: `report_most`, as `report_space` says.
pub const REPORT_MOST: usize = 17 + 48 * run::EVENTS_MOST + 17 * book::SEATS_MOST;

// The numbers that end a line, a space before each.
fn put_ending(page: &mut Page, numbers: &[usize])
    requires few_digits { FewDigits numbers.now }
    requires room { HasRoom page.old (ending_most (length numbers.now)) }
    ensures text { Wrote page.old (ending numbers.now) page.new }
    ensures most { page.new.size ≤ page.old.size + ending_most (length numbers.now) }
{
    for number in numbers {
        page.byte(SPACE);
        page.number(*number);
    }
    page.byte(NEWLINE);
}

// The line of event `n`, counted from 1.
fn put_event(page: &mut Page, n: usize, event: Event, answer: Answer)
    requires few_digits { (n < number_most) × (event.seat < number_most) }
    requires room { HasRoom page.old event_line_most }
    ensures text { Wrote page.old (event_line n event answer) page.new }
    ensures most { page.new.size ≤ page.old.size + event_line_most }
{
    page.number(n);
    // Bytes are widened by `as`, here and in sums and indices elsewhere: `usize::from` around each would say no more.
    put_ending(
        page,
        &[
            event.seat,
            event.way as usize,
            event.message as usize,
            answer.refusal as usize,
            answer.state as usize,
            answer.action as usize,
            answer.reply as usize,
        ],
    );
}

// A line for each event, with its answer: their records stand in the areas that a run takes, so both are read by their number.
// `run::work` goes the same way and writes the answers: a function for both walks would be the `for` alone.
fn put_events(page: &mut Page, events: &[u8], answers: &[u8])
    requires events_len_bound { (length events.now ≤ records_most) × (length events.now ≤ length answers.now) }
    requires room { HasRoom page.old (event_line_most * (length events.now / 4)) }
    ensures text { Wrote page.old (event_lines 1 (events_of events.now) (answers_in answers.now events.now)) page.new }
    ensures most { page.new.size ≤ page.old.size + event_line_most * (length events.now / 4) }
{
    for i in 0..events.len() / records::EVENT_SIZE {
        put_event(
            page,
            i + 1,
            records::read_event(events, i),
            run::read_answer(answers, i),
        );
    }
}

// A line for each seat.
fn put_seats(page: &mut Page, book: &Book)
    requires { HasRoom page.old (seat_line_most * seat_count book.now) }
    ensures { Wrote page.old (seat_lines book.now (seat_count book.now)) page.new }
{
    for n in 0..book.seat_count() {
        page.word(b"seat");
        put_ending(page, &[n, book.seat(n).state as usize]);
    }
}

// The listing of a book after its events. The room is no invariant of a page, as each write takes some of it.
// Here and below room for a whole report is asked: a least room of each one's own would be a number more.
fn put_listing(page: &mut Page, book: &Book, events: &[u8], answers: &[u8])
    requires events_len_bound { (length events.now ≤ records_most) × (length events.now ≤ length answers.now) }
    requires room { HasRoom page.old report_most }
    ensures { Wrote page.old (listed book.now (events_of events.now) (answers_in answers.now events.now)) page.new }
{
    page.word(b"book");
    put_ending(page, &[book.activity_count(), book.seat_count()]);
    put_events(page, events, answers);
    put_seats(page, book);
}

// The events of a journal worked on the good book before it.
fn put_worked(page: &mut Page, book: &mut [u8], events: &[u8])
    requires good { book_refusal book.old ≡ 0 }
    requires events_len { (length events.now % 4 ≡ 0) × (length events.now ≤ records_most) }
    requires room { HasRoom page.old report_most }
    ensures text { Wrote page.old (listing book.old (events_of events.now)) page.new }
    ensures book { book.new ≡ after book.old (events_of events.now) }
{
    let mut answers = [0; RECORDS_MOST];
    // A good book, and an area with room for its answers, are never refused.
    let _ = run::run(book, events, &mut answers);
    put_listing(page, &Book::of(book), events, &answers);
}

// Why an input has no listing: its book is refused, or a line of its journal is.
#[derive(Clone, Copy, Debug, PartialEq, Eq)]
enum Refusal {
    Book(book::Refusal),
    Journal(journal::Refused),
}

impl From<book::Refusal> for Refusal {
    ghost use Rattle.desk.specs.declared.Refusal.TheVariants.{Book};

    ghost from_gives = { λ r refusal. refusal ≡ Book r };

    fn from(r: book::Refusal) -> Refusal {
        Refusal::Book(r)
    }
}

impl From<journal::Refused> for Refusal {
    ghost use Rattle.desk.specs.declared.Refusal.TheVariants.{Journal};

    ghost from_gives = { λ r refusal. refusal ≡ Journal r };

    fn from(r: journal::Refused) -> Refusal {
        Refusal::Journal(r)
    }
}

// `refused N` of a book; of a journal `refused N line L`.
fn put_refusal(page: &mut Page, refusal: Refusal)
    requires few_digits { LineFits refusal }
    requires room { HasRoom page.old report_most }
    ensures { Wrote page.old (printed (refused_as refusal)) page.new }
{
    page.word(b"refused");
    match refusal {
        Refusal::Book(r) => put_ending(page, &[r as usize]),
        Refusal::Journal(r) => {
            page.byte(SPACE);
            page.field(r.refusal.number() as usize, SPACE);
            page.word(b"line");
            put_ending(page, &[r.line]);
        }
    }
}

// A good book and its journal's events, by how many bytes each has: two lengths and no slices, as the run writes the book.
#[derive(Clone, Copy, Debug, PartialEq, Eq)]
struct Work {
    book: usize,
    events: usize,
}

// Judges the book, and then the journal behind it, whose events are left in the area.
fn judge(input: &[u8], area: &mut [u8]) -> Result<Work, Refusal>
    requires { records_most ≡ length area.old }
    ensures { MatchResult result (Works input.now area.new) (Refuses input.now) }
{
    let size = Head::new(input).ok_or(book::Refusal::Short)?.size();
    if input.len() < size {
        return Err(book::Refusal::Layout.into());
    }
    let (book, text) = input.split_at(size);
    book::check(book)?;
    let count = journal::read(text, area)?;
    Ok(Work {
        book: size,
        events: records::EVENT_SIZE * count,
    })
}

// The whole text. The book is left as the run leaves it.
fn put_report(page: &mut Page, input: &mut [u8])
    requires { HasRoom page.old report_most }
    ensures text { Wrote page.old (report_of input.old) page.new }
    ensures input { input.new ≡ input_after input.old }
{
    let mut kept = [0; RECORDS_MOST];
    match judge(input, &mut kept) {
        Ok(work) => put_worked(page, &mut input[..work.book], &kept[..work.events]),
        Err(refusal) => put_refusal(page, refusal),
    }
}

// Room for any report.
pub fn report_space() -> [u8; REPORT_MOST]
    ensures { report_most ≡ length result }
{
    [0; REPORT_MOST]
}

// Puts the whole text at the front of `out` and returns its length. The book is left as the run leaves it.
pub fn report(input: &mut [u8], out: &mut [u8]) -> usize
    requires { report_most ≤ length out.old }
    ensures count { result ≡ length (report_of input.old) }
    ensures within { result ≤ length out.old }
    ensures text { out.new ≡ report_of input.old ++ drop (length (report_of input.old)) out.old }
    ensures input { input.new ≡ input_after input.old }
{
    let mut page = Page { area: out, size: 0 };
    put_report(&mut page, input);
    page.size
}
