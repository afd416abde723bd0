#![tactic(auto)]
// Prints the numbers that include/lotend.h names, as the crates have them. What it must print is made from the header.
use rules::{Action, Direction, message, state};

fn main() {
    messages();
    ways_and_states();
    records_of_a_book();
    actions();
    refusals();
    limits();
}

// A line of each name and its number.
fn lines<N: Copy + Into<usize>>(named: &[(&[u8], N)]) {
    for (name, value) in named {
        show::text(name);
        show::space();
        show::number((*value).into());
        show::line_end();
    }
}

fn messages() {
    lines(&[
        (b"LOTEND_MESSAGE_CANCEL", message::CANCEL),
        (b"LOTEND_MESSAGE_COMPLETE", message::COMPLETE),
        (b"LOTEND_MESSAGE_CLOSE", message::CLOSE),
        (b"LOTEND_MESSAGE_COMPENSATE", message::COMPENSATE),
        (b"LOTEND_MESSAGE_FAILED", message::FAILED),
        (b"LOTEND_MESSAGE_EXITED", message::EXITED),
        (b"LOTEND_MESSAGE_NOT_COMPLETED", message::NOT_COMPLETED),
        (b"LOTEND_MESSAGE_EXIT", message::EXIT),
        (b"LOTEND_MESSAGE_COMPLETED", message::COMPLETED),
        (b"LOTEND_MESSAGE_FAIL", message::FAIL),
        (b"LOTEND_MESSAGE_CANNOT_COMPLETE", message::CANNOT_COMPLETE),
        (b"LOTEND_MESSAGE_CANCELED", message::CANCELED),
        (b"LOTEND_MESSAGE_CLOSED", message::CLOSED),
        (b"LOTEND_MESSAGE_COMPENSATED", message::COMPENSATED),
    ]);
}

fn ways_and_states() {
    lines(&[
        (b"LOTEND_WAY_RECEIVED", rules::RECEIVED),
        (b"LOTEND_WAY_SENT", rules::SENT),
        (b"LOTEND_STATE_ACTIVE", state::ACTIVE),
        (b"LOTEND_STATE_CANCELING", state::CANCELING),
        (
            b"LOTEND_STATE_CANCELING_COMPLETING",
            state::CANCELING_COMPLETING,
        ),
        (b"LOTEND_STATE_COMPLETING", state::COMPLETING),
        (b"LOTEND_STATE_COMPLETED", state::COMPLETED),
        (b"LOTEND_STATE_CLOSING", state::CLOSING),
        (b"LOTEND_STATE_COMPENSATING", state::COMPENSATING),
        (b"LOTEND_STATE_FAILING", state::FAILING),
        (
            b"LOTEND_STATE_FAILING_COMPENSATING",
            state::FAILING_COMPENSATING,
        ),
        (b"LOTEND_STATE_NOT_COMPLETING", state::NOT_COMPLETING),
        (b"LOTEND_STATE_EXITING", state::EXITING),
        (b"LOTEND_STATE_ENDED", state::ENDED),
        (b"LOTEND_STATE_ENDED_FAILED", state::ENDED_FAILED),
        (b"LOTEND_STATE_ENDED_EXITED", state::ENDED_EXITED),
        (
            b"LOTEND_STATE_ENDED_NOT_COMPLETED",
            state::ENDED_NOT_COMPLETED,
        ),
        (b"LOTEND_STATE_ENDED_CANCELED", state::ENDED_CANCELED),
        (b"LOTEND_STATE_ENDED_CLOSED", state::ENDED_CLOSED),
        (b"LOTEND_STATE_ENDED_COMPENSATED", state::ENDED_COMPENSATED),
    ]);
}

fn records_of_a_book() {
    lines(&[
        (b"LOTEND_ROLE_COORDINATOR", rules::COORDINATOR),
        (b"LOTEND_ROLE_PARTICIPANT", rules::PARTICIPANT),
        (b"LOTEND_TABLE_PLAIN", rules::PLAIN),
        (b"LOTEND_TABLE_SPLIT", rules::SPLIT),
        (b"LOTEND_KIND_ATOMIC", book::ATOMIC),
        (b"LOTEND_KIND_MIXED", book::MIXED),
        (b"LOTEND_DIRECTION_NONE", rules::DIRECTION_NONE),
        (b"LOTEND_DIRECTION_CLOSE", Direction::Close as u8),
        (b"LOTEND_DIRECTION_COMPENSATE", Direction::Compensate as u8),
    ]);
}

fn actions() {
    lines(&[
        (b"LOTEND_ACTION_NONE", Action::None as u8),
        (b"LOTEND_ACTION_IGNORE", Action::Ignore as u8),
        (b"LOTEND_ACTION_REPLY", Action::Reply as u8),
        (b"LOTEND_ACTION_FORGET", Action::Forget as u8),
    ]);
}

fn refusals() {
    lines(&[
        (b"LOTEND_REFUSED_NOTHING", rules::GOOD),
        (b"LOTEND_REFUSED_BOOK_SHORT", book::Refusal::Short as u8),
        (b"LOTEND_REFUSED_LAYOUT", book::Refusal::Layout as u8),
        (b"LOTEND_REFUSED_ACTIVITY", book::Refusal::Activity as u8),
        (b"LOTEND_REFUSED_SEAT", book::Refusal::Seat as u8),
        (
            b"LOTEND_REFUSED_SEAT_DIRECTION",
            book::Refusal::SeatDirection as u8,
        ),
        (
            b"LOTEND_REFUSED_EVENT_LIST",
            run::Refusal::EventList.number(),
        ),
        (
            b"LOTEND_REFUSED_ANSWER_AREA",
            run::Refusal::AnswerArea.number(),
        ),
        (b"LOTEND_REFUSED_NO_SEAT", rules::Refusal::NoSeat as u8),
        (b"LOTEND_REFUSED_EVENT", rules::Refusal::Event as u8),
        (b"LOTEND_REFUSED_WAY", rules::Refusal::Way as u8),
        (
            b"LOTEND_REFUSED_INVALID_STATE",
            rules::Refusal::InvalidState as u8,
        ),
        (b"LOTEND_REFUSED_OUTCOME", rules::Refusal::Outcome as u8),
        (b"LOTEND_REFUSED_LINE_LONG", line::Refusal::Long as u8),
        (b"LOTEND_REFUSED_LINE_SEAT", line::Refusal::Seat as u8),
        (b"LOTEND_REFUSED_LINE_WAY", line::Refusal::Way as u8),
        (b"LOTEND_REFUSED_LINE_NAME", line::Refusal::Name as u8),
        (b"LOTEND_REFUSED_LINE_ROOM", journal::Refusal::Room.number()),
        (
            b"LOTEND_REFUSED_TEXT_LONG",
            journal::Refusal::TextLong.number(),
        ),
    ]);
}

fn limits() {
    lines(&[
        (b"LOTEND_MAX_SEATS", book::SEATS_MOST),
        (b"LOTEND_MAX_ACTIVITIES", book::ACTIVITIES_MOST),
        (b"LOTEND_MAX_EVENTS", run::EVENTS_MOST),
        (
            b"LOTEND_MAX_BOOK_BYTES",
            book::HEAD_SIZE
                + book::ACTIVITY_SIZE * book::ACTIVITIES_MOST
                + book::SEAT_SIZE * book::SEATS_MOST,
        ),
        (b"LOTEND_MAX_TEXT_BYTES", journal::TEXT_MOST),
        (b"LOTEND_MAX_LINE_BYTES", line::LINE_MOST),
        (b"LOTEND_HEADER_BYTES", book::HEAD_SIZE),
        (b"LOTEND_ACTIVITY_BYTES", book::ACTIVITY_SIZE),
        (b"LOTEND_SEAT_BYTES", book::SEAT_SIZE),
        (b"LOTEND_EVENT_BYTES", records::EVENT_SIZE),
        (b"LOTEND_ANSWER_BYTES", run::ANSWER_SIZE),
    ]);
}
