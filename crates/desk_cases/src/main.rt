#![tactic(auto)]
// Reads inputs of `lotend` from standard input, case after case, and prints `case N` and the report on each; of a report over 1,000
// bytes `long`, its length and its sum. A case is the input's length in four little-endian bytes, and the input.

// As many bytes of a report as are printed as they are.
const WHOLE_MOST: usize = 1000;

fn main() {
    let mut input = [0; 90000];
    let mut out = desk::report_space();
    show::cases(|n| next_case(n, &mut input, &mut out));
}

// None where the input has no more, or a case that is longer than the space for it.
// The report's space is made once for all cases, and its length is the type's.
fn next_case(n: usize, input: &mut [u8], out: &mut [u8; desk::REPORT_MOST]) -> Option<()> {
    let size = show::read_size()?;
    let input = input.get_mut(..size)?;
    show::read_whole(input)?;
    let count = desk::report(input, out);
    show::text(b"case ");
    show::number(n);
    show::line_end();
    print(&out[..count]);
    Some(())
}

fn print(report: &[u8]) {
    if report.len() <= WHOLE_MOST {
        show::text(report);
    } else {
        show::named(b"long ", report);
    }
}
