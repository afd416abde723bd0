#![tactic(auto)]
// What the programs that work cases share: how cases are read from standard input, an area to be written, and what they print:
// words, numbers, and bytes one by one or, of many, as a sum.
ghost use Rattle.std.specs.Prelude.{◌≡◌, ℕ, ◌+◌, ◌*◌, ◌≤◌, ◌<◌, length, get_or, IfSome};
ghost use Rattle.io.specs.Digits.{IsDigitCount};
ghost use Rattle.records.specs.Records.{at16};
ghost use Rattle.show.specs.Adler.{adler};
ghost use Rattle.show.specs.Cases.{Worked};
ghost use Rattle.show.specs.Shown.{shown};

// The standard streams, by the numbers of the C interface, which `io` takes. `lotend` has its own: it stands on nothing of the gate.
const STDIN: i32 = 0;

const STDOUT: i32 = 1;

// What an area has before a case is worked, so that what is written there can be seen.
pub const FILLED: u8 = 165;

// More cases than an input has: nothing says that an input ends.
const CASES_MOST: usize = 1000000;
// As many bytes as are shown one by one.
const WHOLE_MOST: usize = 96;
// The largest prime below 65,536, as zlib has it.
const PRIME: u32 = 65521;

// Works case 1, case 2 and so on, up to the first that is not there.
pub fn cases<F: FnMut(usize) -> Option<()>>(mut case: F)
    requires { F.IsAlwaysCallable case }
    ensures { (last : F) × Worked F.step case 1 CASES_MOST last }
{
    for n in 1..=CASES_MOST {
        let Some(()) = case(n) else {
            return;
        };
    }
}

// The 32-bit number that the input goes on with. None where it ends before.
// By `u32_at`, whose contract says which number four bytes are: no contract can say what the input has.
pub fn read_size() -> Option<usize>
    ensures { IfSome result (λ n. n < 4294967296) }
{
    let mut size = [0u8; 4];
    read_whole(&mut size)?;
    Some(u32_at(&size, 0))
}

// All that a part holds, from the input. None where it ends before.
pub fn read_whole(part: &mut [u8]) -> Option<()>
    ensures { length part.new ≡ length part.old }
{
    (io::read_full(STDIN, part) == part.len()).then_some(())
}

// No contract can say what C writes, so each function that prints answers how many bytes it hands over, or a part of them.

pub fn text(part: &[u8]) -> usize
    ensures { result ≡ length part.now }
{
    io::write_all(STDOUT, part);
    part.len()
}

pub fn number(n: usize) -> usize
    ensures { IsDigitCount 10 1 n result }
{
    let mut digits = [0u8; 20];
    let k = io::decimal(n as u64, &mut digits);
    text(&digits[..k])
}

// A space and a line's end have names of their own, since the programs print them at many places.
pub fn space() -> usize
    ensures { result ≡ 1 }
{
    text(b" ")
}

pub fn line_end() -> usize
    ensures { result ≡ 1 }
{
    text(b"\n")
}

// A line of a name and bytes. The answer leaves out what `bytes` leaves out.
#[tactic(auto, unfolding(crate::specs::Shown::shown))]
pub fn named(name: &[u8], part: &[u8]) -> usize
    ensures { result ≡ length name.now + shown (length part.now) + 1 }
{
    text(name) + bytes(part) + line_end()
}

// The length in decimal, a space, and the bytes in hexadecimal; of more than 96 bytes their sum after a `#`.
// The answer leaves the length and the space out.
#[tactic(auto, unfolding(crate::specs::Shown::shown))]
pub fn bytes(part: &[u8]) -> usize
    ensures { result ≡ shown (length part.now) }
{
    let n = part.len();
    number(n);
    space();
    if WHOLE_MOST < n {
        return text(b"#") + sum(part);
    }
    for x in part {
        io::print_hex(STDOUT, u64::from(*x), 2);
    }
    2 * n
}

// The sum of bytes, in eight digits.
pub fn sum(part: &[u8]) -> usize
    ensures { result ≡ 8 }
{
    io::print_hex(STDOUT, u64::from(adler32(part)), 8);
    8
}

// zlib's Adler-32.
#[tactic(auto, unfolding(crate::specs::Adler::adler))]
pub fn adler32(part: &[u8]) -> u32
    ensures { result ≡ adler part.now }
{
    let mut low: u32 = 1;
    let mut high: u32 = 0;
    for x in part {
        low = (low + u32::from(*x)) % PRIME;
        high = (high + low) % PRIME;
    }
    high * 65536 + low
}

// The 32-bit number at a place, the lowest byte first. No `From` makes a `usize` of a `u32`, or a `u64` of a `usize`: so `as`, twice.
#[tactic(auto, unfolding(records::specs::Records::at16))]
pub fn u32_at(head: &[u8], at: usize) -> usize
    requires { at + 4 ≤ length head.now }
    ensures value { result ≡ at16 head.now at + 65536 * at16 head.now (at + 2) }
    ensures most { result < 4294967296 }
{
    u32::from_le_bytes([head[at], head[at + 1], head[at + 2], head[at + 3]]) as usize
}

// Every byte of an area becomes the value: `fill` of slices, with an equation for each byte.
pub fn fill(area: &mut [u8], value: u8)
    ensures size { length area.new ≡ length area.old }
    ensures each { (k : ℕ) → k < length area.old → get_or area.new k 0 ≡ value }
{
    area.fill(value);
}
