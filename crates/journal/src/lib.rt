#![tactic(auto)]
// A journal: a text whose lines become event records. They are kept aside until the last line is good, so a refusal writes nothing.
ghost use Rattle.std.specs.Prelude.{◌≡◌, ◌*◌, ◌≤◌, min, length};
ghost use Rattle.line.specs.Grammar.{told as line_told};
ghost use Rattle.journal.specs.Journal.{has_room, roomed, lines_from, lines, reading, area_after, Answered, Owed, number, told};

use line::Aids;
use records::Event;

pub const TEXT_MOST: usize = 65536;

// So short a text has at most as many events, for a line has a byte at least: the records need few bytes aside.
const SHORT_TEXT: usize = 256;

pub const EVENTS_MOST: usize = records::EVENTS_MOST;

// Why a text gives no events.
#[derive(Clone, Copy, Debug, PartialEq, Eq)]
pub enum Refusal {
    // A line's own.
    Line(line::Refusal),
    // A good line has no room left, in the area or in a run.
    Room,
    // More than 65,536 bytes, whatever the lines say.
    TextLong,
}

impl From<line::Refusal> for Refusal {
    ghost use Rattle.journal.specs.declared.Refusal.TheVariants.{Line};

    ghost from_gives = { λ r e. e ≡ Line r };

    fn from(refusal: line::Refusal) -> Refusal {
        Refusal::Line(refusal)
    }
}

impl Refusal {
    pub fn number(self) -> u8
        ensures { result ≡ number self }
    {
        match self {
            Refusal::Line(refusal) => refusal as u8,
            Refusal::Room => 25,
            Refusal::TextLong => 26,
        }
    }
}

// A refusal with its line's number, counted from 1. The reading's line is 0 where no line is refused, and so it is here.
#[derive(Clone, Copy, Debug, PartialEq, Eq)]
pub struct Refused {
    pub refusal: Refusal,
    pub line: usize,
}

// Puts the records of all events at the front of the area, and says how many they are.
pub fn read(text: &[u8], area: &mut [u8]) -> Result<usize, Refused>
    ensures value { told result ≡ reading text.now (length area.old) }
    ensures bytes { area.new ≡ area_after text.now area.old }
{
    if TEXT_MOST < text.len() {
        return Err(Refused {
            refusal: Refusal::TextLong,
            line: 0,
        });
    }
    let aids = Aids::made();
    let aids = Aids::of(&aids);
    // Four bytes for each event that the text can have.
    if text.len() <= SHORT_TEXT {
        let mut kept = [0; 1024];
        return read_aside(text, area, &mut kept, aids);
    }
    let mut kept = [0; 16384];
    read_aside(text, area, &mut kept, aids)
}

// The same of a text that is not too long, with room aside for as many events as it has bytes, or for 4,096.
// The area is lent to it: with an area of its own the copy out of it would be `memcpy`, which an archive for C would need from outside.
fn read_aside(text: &[u8], area: &mut [u8], kept: &mut [u8], aids: Aids) -> Result<usize, Refused>
    requires text { length text.now ≤ 65536 }
    requires room { 4 * min (length text.now) 4096 ≤ length kept.old }
    ensures value { told result ≡ reading text.now (length area.old) }
    ensures bytes { area.new ≡ area_after text.now area.old }
{
    let count = read_lines(text, area.len(), kept, aids)?;
    let size = records::EVENT_SIZE * count;
    area[..size].copy_from_slice(&kept[..size]);
    Ok(count)
}

// Reads line after line and keeps the events, until one is refused or the text ends: a buffer and a count, as there is no heap.
fn read_lines(text: &[u8], area: usize, kept: &mut [u8], aids: Aids) -> Result<usize, Refused>
    requires { 4 * min (length text.now) 4096 ≤ length kept.old }
    ensures { Owed (lines_from area 0 (lines text.now)) (told result) kept.new area }
{
    let mut rest = text;
    let mut n = 0;
    // Each turn takes a line of its own length, which `next` finds, so there is no list of lines to walk over.
    while !rest.is_empty() {
        let next = line::next(rest, aids);
        let said = roomed(next.said, has_room(area, n), n + 1);
        // The outline's form: a parsed line is taken apart by let .. else. There is no event, so `map` gives the refusal as it is.
        let Ok(event) = said else {
            return said.map(|_| n);
        };
        records::put_event(kept, n, event);
        rest = &rest[next.size + 1..];
        n += 1;
    }
    Ok(n)
}

// Whether one more event fits after n, in the area and in a run.
#[tactic(auto, unfolding(crate::specs::Journal::has_room))]
fn has_room(area: usize, n: usize) -> bool
    ensures { result ≡ has_room area n }
{
    n < EVENTS_MOST && records::EVENT_SIZE * n + records::EVENT_SIZE <= area
}

// The event of a line by its number, where there is one and room for it.
fn roomed(said: Result<Event, line::Refusal>, room: bool, line: usize) -> Result<Event, Refused>
    ensures { Answered (roomed room (line_told said)) line result }
{
    match said {
        Ok(event) if room => Ok(event),
        Ok(_) => Err(Refused {
            refusal: Refusal::Room,
            line,
        }),
        Err(refusal) => Err(Refused {
            refusal: refusal.into(),
            line,
        }),
    }
}
