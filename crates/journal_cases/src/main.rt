#![tactic(auto)]
// Reads journals from standard input, case after case, and prints what `journal::read` makes of each: `N R L C` (the case, the
// refusal, its line and the event count) and `area` with the area's bytes. A case is the text's length and the area's, in four
// little-endian bytes each, and the text. The area is filled with `show::FILLED` before the call.

fn main() {
    let mut text = [0; 70000];
    let mut area = [0; 17000];
    show::cases(|n| next_case(n, &mut text, &mut area));
}

// None where the input has no more, or a case that is longer than the space for it.
fn next_case(n: usize, text: &mut [u8], area: &mut [u8]) -> Option<()> {
    let text_size = show::read_size()?;
    let area_size = show::read_size()?;
    let text = text.get_mut(..text_size)?;
    let area = area.get_mut(..area_size)?;
    show::read_whole(text)?;
    show::fill(area, show::FILLED);
    answer(n, text, area);
    Some(())
}

fn answer(n: usize, text: &[u8], area: &mut [u8]) {
    // Three numbers to print, as `lotend_c` makes them for C in C's widths: `journal` answers a `Result`.
    let (refusal, line, count) = match journal::read(text, area) {
        Ok(count) => (0, 0, count),
        Err(refused) => (refused.refusal.number(), refused.line, 0),
    };
    show::number(n);
    show::space();
    show::number(usize::from(refusal));
    show::space();
    show::number(line);
    show::space();
    show::number(count);
    show::line_end();
    show::named(b"area ", area);
}
