#![tactic(auto)]
// Numbers of 16 bits and records of four bytes, as they stand in lent bytes. An event is such a record.
ghost use Rattle.std.specs.Prelude.{◌≡◌, [], ◌∷◌, ◌+◌, ◌*◌, ◌≤◌, ◌<◌, length};
ghost use Rattle.records.specs.Records.{at16, placed, event_at, event_bytes};

pub const EVENT_SIZE: usize = 4;

// As many as a run takes.
pub const EVENTS_MOST: usize = 4096;

// Way and message are numbers, as a list may hold any byte and a run answers each.
#[derive(Clone, Copy, Debug, PartialEq, Eq)]
pub struct Event {
    pub seat: usize,
    pub way: u8,
    pub message: u8,
}

impl From<[u8; EVENT_SIZE]> for Event {
    ghost from_gives = { λ four e. e ≡ event_at four 0 };

    #[tactic(auto, unfolding(crate::specs::Records::event_at, crate::specs::Records::at16))]
    fn from(four: [u8; EVENT_SIZE]) -> Event {
        let [low, high, way, message] = four;
        Event {
            seat: usize::from(u16::from_le_bytes([low, high])),
            way,
            message,
        }
    }
}

impl From<Event> for [u8; EVENT_SIZE] {
    ghost from_gives = { λ e four. four ≡ event_bytes e };

    // Of a seat's number the lower 16 bits.
    fn from(e: Event) -> [u8; EVENT_SIZE] {
        let [low, high] = u16::to_le_bytes((e.seat % 0x1_0000) as u16);
        [low, high, e.way, e.message]
    }
}

// The 16-bit number at a place, the lower byte first. No trait joins the widths' `from_le_bytes`: `show` has 32 bits, `words` 64.
#[tactic(auto, unfolding(crate::specs::Records::at16))]
pub fn u16_at(bytes: &[u8], at: usize) -> usize
    requires { at + 2 ≤ length bytes.now }
    ensures value { result ≡ at16 bytes.now at }
    ensures most { result < 65536 }
{
    usize::from(u16::from_le_bytes([bytes[at], bytes[at + 1]]))
}

// Bytes at a place.
#[tactic(auto, unfolding(crate::specs::Records::placed))]
pub fn put(area: &mut [u8], at: usize, part: &[u8])
    requires { at + length part.now ≤ length area.old }
    ensures bytes { area.new ≡ placed area.old at part.now }
    ensures size { length area.new ≡ length area.old }
{
    area[at..at + part.len()].copy_from_slice(part);
}

// Four bytes at a place.
pub fn put_four(area: &mut [u8], at: usize, four: [u8; 4])
    requires { at + 4 ≤ length area.old }
    ensures { area.new ≡ placed area.old at four }
{
    put(area, at, &four);
}

// Event `n` of a list. That it is there is a clause, also where it is put and at answers: lists and areas are lent bytes of any length.
#[tactic(auto, unfolding(crate::specs::Records::event_at, crate::specs::Records::at16))]
pub fn read_event(events: &[u8], n: usize) -> Event
    requires { 4 * n + 4 ≤ length events.now }
    ensures { result ≡ event_at events.now n }
{
    let at = EVENT_SIZE * n;
    Event::from([events[at], events[at + 1], events[at + 2], events[at + 3]])
}

// An event as record `n` of an area.
pub fn put_event(area: &mut [u8], n: usize, e: Event)
    requires { 4 * n + 4 ≤ length area.old }
    ensures { area.new ≡ placed area.old (4 * n) (event_bytes e) }
{
    put_four(area, EVENT_SIZE * n, e.into());
}
