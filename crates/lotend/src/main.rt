#![tactic(auto)]
// Reads a book and a journal from standard input and prints the report on them.
ghost use Rattle.std.specs.Prelude.{◌≡◌, length};
ghost use Rattle.desk.specs.Theorems.{input_most};

// The standard streams, by the numbers of the C interface, which `io` takes. `show` is the gate's, and lotend stands on desk and io alone.
const STDIN: i32 = 0;

const STDOUT: i32 = 1;

fn main() {
    let mut input = input_space();
    let size = io::read_full(STDIN, &mut input);
    let mut out = desk::report_space();
    let count = desk::report(&mut input[..size], &mut out);
    io::write_all(STDOUT, &out[..count]);
}

// The longest book, the longest journal and one byte more: what comes after can't change the report (`read_enough`).
const INPUT_MOST: usize = 82441;

fn input_space() -> [u8; INPUT_MOST]
    ensures { input_most ≡ length result }
{
    [0; INPUT_MOST]
}
