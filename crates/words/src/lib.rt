#![tactic(auto)]
// Eight bytes taken at once as a number of 64 bits, so that they are compared in one step.
ghost use Rattle.std.specs.Prelude.{◌≡◌, ◌+◌, ◌≤◌, ◌<◌, length, get_or};
ghost use Rattle.words.specs.Words.{word_at};

// The 64-bit number at a place, the lowest byte first: a function of its own, as `records::u16_at` says.
#[tactic(auto, using(crate::specs::Laws::word_at_lem))]
pub fn u64_at(bytes: &[u8], at: usize) -> u64
    requires { at + 8 ≤ length bytes.now }
    ensures { result ≡ word_at bytes.now at }
{
    u64::from_le_bytes([
        bytes[at],
        bytes[at + 1],
        bytes[at + 2],
        bytes[at + 3],
        bytes[at + 4],
        bytes[at + 5],
        bytes[at + 6],
        bytes[at + 7],
    ])
}
