#![tactic(auto)]
// One line of a journal: where its newline stands, and the event that it says or its refusal.
mod quick;

ghost use Rattle.std.specs.Prelude.{◌≡◌, ◌<◌, ◌≤◌, length, take, IfSome};
ghost use Rattle.names.specs.Numbers.{way_number};
ghost use Rattle.line.specs.Grammar.{index_of, third_of, second_of, fields_of, line_of, line_most, newline, told};
ghost use Rattle.line.specs.Seats.{place_in, seat_in, digits_in};

use names::Way;
pub use quick::Aids;
use records::Event;

// A line with its newline.
pub const LINE_MOST: usize = 26;

pub const NEWLINE: u8 = b'\n';

pub const SPACE: u8 = b' ';

const SEAT_MOST: usize = 65535;

const ZERO: u8 = b'0';

// Why a line says no event.
#[derive(Clone, Copy, Debug, PartialEq, Eq)]
pub enum Refusal {
    // No newline in its first 26 bytes.
    Long = 21,
    // It begins with no seat and a space.
    Seat = 22,
    // No way and a space follow.
    Way = 23,
    // What is left is no message's name.
    Name = 24,
}

// What digits say, and how many they are. One type for this, `NextLine` and `quick::Found` would call a number and an event alike.
#[derive(Clone, Copy, Debug, PartialEq, Eq)]
struct Number {
    value: usize,
    size: usize,
}

// What a line says, and the place of its newline.
#[derive(Clone, Copy, Debug, PartialEq, Eq)]
pub struct NextLine {
    pub said: Result<Event, Refusal>,
    pub size: usize,
}

// The line that the text begins with. `size` is the smaller of 26 and the text's length where its first 26 bytes have no newline.
#[tactic(auto, using(crate::proofs::Steps::line_steps))]
pub fn next(rest: &[u8], aids: Aids) -> NextLine
    ensures said { told result.said ≡ line_of rest.now }
    ensures place { result.size ≡ index_of newline (take line_most rest.now) }
    ensures within { result.size ≤ length rest.now }
{
    if let Some(found) = quick::read(rest, aids) {
        return NextLine {
            said: Ok(found.event),
            size: found.size,
        };
    }
    let front = front_of(rest);
    match place_of(front, NEWLINE) {
        Some(size) => NextLine {
            said: fields(&front[..size]),
            size,
        },
        None => NextLine {
            said: Err(Refusal::Long),
            size: front.len(),
        },
    }
}

// As much of a text as its first line can be.
fn front_of(rest: &[u8]) -> &[u8]
    ensures front { result.now ≡ take line_most rest.now }
    ensures within { length result.now ≤ length rest.now }
{
    rest.get(..LINE_MOST).unwrap_or(rest)
}

// A line without its newline. The outline's form, here and below: it is taken apart by let .. else, each field with its refusal.
#[tactic(auto, using(crate::proofs::Steps::field_steps))]
fn fields(body: &[u8]) -> Result<Event, Refusal>
    ensures { told result ≡ fields_of body.now }
{
    let Some(Number { value, size }) = first(body) else {
        return Err(Refusal::Seat);
    };
    second(value, &body[size + 1..])
}

// What stands after the first space.
fn second(seat: usize, part: &[u8]) -> Result<Event, Refusal>
    ensures { told result ≡ second_of seat part.now }
{
    let Some(at) = place_of(part, SPACE) else {
        return Err(Refusal::Way);
    };
    let Some(way) = names::way_named(&part[..at]) else {
        return Err(Refusal::Way);
    };
    third(seat, way, &part[at + 1..])
}

// What stands after the second.
#[tactic(auto, unfolding(crate::specs::Grammar::third_of))]
fn third(seat: usize, way: Way, part: &[u8]) -> Result<Event, Refusal>
    ensures { told result ≡ third_of seat (way_number way) part.now }
{
    let Some(message) = names::message_named(part) else {
        return Err(Refusal::Name);
    };
    Ok(Event {
        seat,
        way: way.number(),
        message: message.number(),
    })
}

// The seat that a line begins with, and the place of the space after it, found in one walk.
#[tactic(auto, using(crate::proofs::Decimal::seat_begins))]
fn first(body: &[u8]) -> Option<Number>
    ensures seat { result ≡ seat_in body.now }
    ensures within { IfSome result (λ x. x.size < length body.now) }
{
    if body.len() < 2 {
        return None;
    }
    if body[0] == SPACE {
        return None;
    }
    if body[0] == ZERO && body[1] != SPACE {
        return None;
    }
    digits(body)
}

// The same where no byte is missing before the space and no zero leads.
#[tactic(auto, using(crate::proofs::Decimal::digits_on))]
fn digits(body: &[u8]) -> Option<Number>
    ensures seat { result ≡ digits_in 0 0 body.now }
    ensures within { IfSome result (λ x. x.size < length body.now) }
{
    let mut value: usize = 0;
    for (size, &digit) in body.iter().enumerate() {
        if digit == SPACE {
            return Some(Number { value, size });
        }
        if !digit.is_ascii_digit() {
            return None;
        }
        value = value * 10 + (digit - ZERO) as usize;
        if SEAT_MOST < value {
            return None;
        }
    }
    None
}

// The first place of b in s.
fn place_of(s: &[u8], b: u8) -> Option<usize>
    ensures place { result ≡ place_in b s.now }
    ensures within { IfSome result (λ i. i < length s.now) }
{
    s.iter().position(|&x| x == b)
}
