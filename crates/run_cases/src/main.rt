#![tactic(auto)]
// Reads runs from standard input, case after case, and prints what `run::run` makes of each: `N R` (the case and the refusal), `book`
// and `answers` with the bytes afterwards. A case is the lengths of book, events and answer area, in four little-endian bytes each,
// then the book and the events. The area is filled with `show::FILLED` before the call.

fn main() {
    let mut book = [0; 20000];
    let mut events = [0; 16400];
    let mut area = [0; 16400];
    show::cases(|n| next_case(n, &mut book, &mut events, &mut area));
}

// None where the input has no more, or a case that is longer than the space for it.
fn next_case(n: usize, book: &mut [u8], events: &mut [u8], area: &mut [u8]) -> Option<()> {
    let book_size = show::read_size()?;
    let events_size = show::read_size()?;
    let area_size = show::read_size()?;
    let book = book.get_mut(..book_size)?;
    let events = events.get_mut(..events_size)?;
    let area = area.get_mut(..area_size)?;
    show::read_whole(book)?;
    show::read_whole(events)?;
    show::fill(area, show::FILLED);
    answer(n, book, events, area);
    Some(())
}

fn answer(n: usize, book: &mut [u8], events: &[u8], area: &mut [u8]) {
    let refusal = run::number_of(run::run(book, events, area));
    show::number(n);
    show::space();
    show::number(usize::from(refusal));
    show::line_end();
    show::named(b"book ", book);
    show::named(b"answers ", area);
}
