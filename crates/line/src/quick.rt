// A good line read with no jump that goes now one way, now the other: no processor foresees how many digits a seat has, which way
// a message went or which name it has. Where the line ends and which message it names are guessed, and then the whole is compared,
// so that a wrong guess costs time and never gives a wrong event. What is not found here is left to the plain reader.
ghost use Rattle.std.specs.Prelude.{◌≡◌, ◌+◌, ◌-◌, ◌<◌, ◌≤◌, true, length, IfSome};
ghost use Rattle.records.specs.Records.{placed};
ghost use Rattle.names.specs.Numbers.{message_number, way_told};
ghost use Rattle.line.specs.Quick.{rows_to, aid_bytes, Digits, SeatAt, WayAt, NameAt, Told};

use crate::{NEWLINE, Number, SEAT_MOST, SPACE, ZERO};
use names::{Message, Way};
use records::Event;

// As many bytes as are looked at from a line's first one, whatever its length.
const REACH: usize = 32;

const DIGITS_MOST: usize = 5;

const LETTERS_MOST: usize = 14;

const NEWLINES: u64 = 0x0a0a_0a0a_0a0a_0a0a;

const ONES: u64 = 0x0101_0101_0101_0101;

const HIGHS: u64 = 0x8080_8080_8080_8080;

// `got ` and `sent`, as numbers of four bytes.
const FOUR_BYTES: u64 = 0x1_0000_0000;

const GOT: u64 = 0x2074_6f67;

const SENT: u64 = 0x746e_6573;

const LETTER_S: u64 = 115;

// Places in the aids. They are one array, since `aid_bytes` says all of their bytes; rows, guesses and masks as three arrays also take
// 2 to 5 in 100 more instructions for a full journal.
const ROW_SIZE: usize = 16;

const ROW_COUNT: u8 = 16;

const GUESSES: usize = 256;

const GUESS_COUNT: usize = 32;

// With it a name's length and its last letter but two tell the fourteen names apart.
const SPREAD: usize = 9;

// Sixteen bytes of ones and then sixteen of zeros: a mask of n bytes begins 16 - n bytes on.
const MASKS: usize = 288;

// A line that was found good, with the place of its newline. `next` makes it a `NextLine`, which may hold a refusal: here is none.
#[derive(Clone, Copy, Debug, PartialEq, Eq)]
pub struct Found {
    pub event: Event,
    pub size: usize,
}

// What lines are compared with, made once for a text: a row for each message, then which one to guess, then the masks.
// The bytes are lent, by who knows that they are `aid_bytes`: an array in it would be copied where it is made.
#[derive(Clone, Copy)]
pub struct Aids<'a> {
    pub bytes: &'a [u8],
    ghost known: { bytes.now ≡ aid_bytes },
    ghost size: { length bytes.now ≡ 320 },
}

impl<'a> Aids<'a> {
    // The bytes to lend: 256 of rows, 32 of guesses and 32 of masks.
    pub fn made() -> [u8; 320]
        ensures { result ≡ aid_bytes }
    {
        let mut bytes = [255; 320];
        // Row by row: in a loop over `Message::ALL` the compiler makes a copy of the array, by `memcpy`.
        put_row(&mut bytes, Message::Cancel);
        put_row(&mut bytes, Message::Complete);
        put_row(&mut bytes, Message::Close);
        put_row(&mut bytes, Message::Compensate);
        put_row(&mut bytes, Message::Failed);
        put_row(&mut bytes, Message::Exited);
        put_row(&mut bytes, Message::NotCompleted);
        put_row(&mut bytes, Message::Exit);
        put_row(&mut bytes, Message::Completed);
        put_row(&mut bytes, Message::Fail);
        put_row(&mut bytes, Message::CannotComplete);
        put_row(&mut bytes, Message::Canceled);
        put_row(&mut bytes, Message::Closed);
        put_row(&mut bytes, Message::Compensated);
        records::put(
            &mut bytes,
            GUESSES,
            b"\x07\x01\0\0\0\0\0\0\0\0\0\0\x03\x0a\0\0\0\x0d\x05\x04\x0c\x02\0\0\0\0\x06\x0b\x08\x09\0\x0e",
        );
        bytes[MASKS + ROW_SIZE..].fill(0);
        bytes
    }

    // The aids in bytes that are known to be they.
    pub fn of(bytes: &'a [u8]) -> Aids<'a>
        requires { bytes.now ≡ aid_bytes }
        ensures { result.bytes.now ≡ bytes.now }
    {
        Aids { bytes }
    }
}

// A row is a name with its newline, and in its last byte how many letters the name has.
fn put_row(aids: &mut [u8], message: Message)
    requires { aids.old ≡ rows_to (message_number message - 1) }
    ensures { aids.new ≡ rows_to (message_number message) }
{
    let name = message.name();
    let at = ROW_SIZE * message.number() as usize;
    records::put(aids, at, name);
    aids[at + name.len()] = NEWLINE;
    aids[at + 15] = name.len() as u8;
}

// The line that the text begins with, where it is found good. A guess is only where to look: each byte of the line is compared.
pub fn read(rest: &[u8], aids: Aids) -> Option<Found>
    ensures told { Told rest.now result }
    ensures within { IfSome result (λ x. x.size ≤ length rest.now) }
{
    if rest.len() < REACH {
        return None;
    }
    let end = end_guess(rest);
    let number = digits(rest);
    if !is_seat(rest, number) {
        return None;
    }
    let size = number.size;
    let way = way_at(rest, size + 1)?.number();
    let at = size + 5 + way as usize;
    let letters = end.wrapping_sub(at);
    if LETTERS_MOST < letters {
        return None;
    }
    let guess = (letters + SPREAD * rest[end - 3] as usize) % GUESS_COUNT;
    // A number, since a guess need be no message's (rows 0 and 15 are none's): that it is one is known when its row has been compared.
    let message = aids.bytes[GUESSES + guess] % ROW_COUNT;
    if !is_name(rest, at, aids, message as usize, letters) {
        return None;
    }
    Some(Found {
        event: Event {
            seat: number.value,
            way,
            message,
        },
        size: end,
    })
}

// Where the newline may stand: the shortest line has it at place 10, the longest at 25.
fn end_guess(rest: &[u8]) -> usize
    requires { 26 ≤ length rest.now }
    ensures low { 10 ≤ result }
    ensures high { result ≤ 26 }
{
    let near = newlines(words::u64_at(rest, 10)).trailing_zeros() as usize / 8;
    let far = newlines(words::u64_at(rest, 18)).trailing_zeros() as usize / 8;
    10 + near + far * ((near == 8) as usize)
}

// A bit for each newline of eight bytes; above the lowest there may be others.
fn newlines(word: u64) -> u64 {
    let x = word ^ NEWLINES;
    x.wrapping_sub(ONES) & !x & HIGHS
}

// The digits that a line begins with, five at most. There are five turns whatever they are: a loop that is left at the first other byte,
// as the plain reader's, jumps another way than foreseen at most lines.
fn digits(rest: &[u8]) -> Number
    requires { 5 ≤ length rest.now }
    ensures { Digits rest.now result }
{
    let mut value: usize = 0;
    let mut size: usize = 0;
    let mut all: usize = 0;
    let mut on = true;
    for &byte in &rest[..DIGITS_MOST] {
        let low = byte.wrapping_sub(ZERO);
        on = on & (low <= 9);
        let one = on as usize;
        all = 10 * all + low as usize;
        value = one * all + (1 - one) * value;
        size += one;
    }
    Number { value, size }
}

// Whether they are a seat, with a space behind it.
fn is_seat(rest: &[u8], x: Number) -> bool
    requires digits { Digits rest.now x }
    requires length { 6 ≤ length rest.now }
    ensures { result ≡ true → SeatAt rest.now x }
{
    let size = x.size;
    if rest[0] == ZERO && 1 < size {
        return false;
    }
    (size != 0) & (x.value <= SEAT_MOST) & (rest[size] == SPACE)
}

// The way that stands at a place, with a space behind it.
fn way_at(rest: &[u8], at: usize) -> Option<Way>
    requires { at + 8 ≤ length rest.now }
    ensures { WayAt rest.now at (way_told result) }
{
    let word = words::u64_at(rest, at) % FOUR_BYTES;
    let (way, four) = if word % 256 == LETTER_S {
        (Way::Sent, SENT)
    } else {
        (Way::Got, GOT)
    };
    let space = at + 3 + way.number() as usize;
    if (word != four) | (rest[space] != SPACE) {
        return None;
    }
    Some(way)
}

// Whether the name at a place, with its newline, is that of a message.
fn is_name(rest: &[u8], at: usize, aids: Aids, message: usize, letters: usize) -> bool
    requires within { at + 16 ≤ length rest.now }
    requires row { message < 16 }
    requires most { letters ≤ 14 }
    ensures { result ≡ true → NameAt rest.now at message letters }
{
    let row = ROW_SIZE * message;
    if aids.bytes[row + 15] as usize != letters {
        return false;
    }
    let low = words::u64_at(aids.bytes, MASKS + 15 - letters);
    let high = words::u64_at(aids.bytes, MASKS + 23 - letters);
    let first = words::u64_at(rest, at) & low == words::u64_at(aids.bytes, row) & low;
    let last = words::u64_at(rest, at + 8) & high == words::u64_at(aids.bytes, row + 8) & high;
    first & last
}
