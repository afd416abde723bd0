#![tactic(auto)]
// The engine for C: include/lotend.h declares these functions. A slice is a pointer and then a length.
ghost use Rattle.std.specs.Prelude.{◌≡◌, length};
ghost use Rattle.run.specs.Run.{run_refusal, run_book, run_answers};
ghost use Rattle.journal.specs.Journal.{reading, area_after};

#[repr(C)]
#[derive(Clone, Copy, Debug, PartialEq, Eq)]
pub struct Reading {
    pub refusal: u32,
    pub line: u32,
    pub count: u32,
}

#[unsafe(no_mangle)]
pub extern "C" fn lotend_run(book: &mut [u8], events: &[u8], answers: &mut [u8]) -> u32
    ensures result { result ≡ run_refusal book.old events.now answers.old }
    ensures book { book.new ≡ run_book book.old events.now answers.old }
    ensures answers { answers.new ≡ run_answers book.old events.now answers.old }
{
    u32::from(run::number_of(run::run(book, events, answers)))
}

#[unsafe(no_mangle)]
#[tactic(auto, using(crate::specs::Small::small_line, crate::specs::Small::small_count))]
pub extern "C" fn lotend_read_journal(text: &[u8], events: &mut [u8]) -> Reading
    ensures refusal { result.refusal ≡ (reading text.now (length events.old)).refusal }
    ensures line { result.line ≡ (reading text.now (length events.old)).line }
    ensures count { result.count ≡ (reading text.now (length events.old)).count }
    ensures bytes { events.new ≡ area_after text.now events.old }
{
    // C gets three numbers, where `journal` answers a `Result`. By `as`: both fit (`small_line`, `small_count`).
    match journal::read(text, events) {
        Ok(count) => Reading {
            refusal: 0,
            line: 0,
            count: count as u32,
        },
        Err(refused) => Reading {
            refusal: u32::from(refused.refusal.number()),
            line: refused.line as u32,
            count: 0,
        },
    }
}
