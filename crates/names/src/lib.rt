#![tactic(auto)]
// The words of a journal: the names of messages and of ways, each compared with the whole of a field.
ghost use Rattle.std.specs.Prelude.{◌≡◌};
ghost use Rattle.names.specs.Names.{message_named, way_named, name_of, way_name};
ghost use Rattle.names.specs.Numbers.{message_number, way_number, message_told, way_told, MessageOf};

// By the numbers of `rules::message`, which are numbers there since any byte is matched.
#[derive(Clone, Copy, Debug, PartialEq, Eq)]
pub enum Message {
    Cancel = 1,
    Complete,
    Close,
    Compensate,
    Failed,
    Exited,
    NotCompleted,
    Exit,
    Completed,
    Fail,
    CannotComplete,
    Canceled,
    Closed,
    Compensated,
}

impl Message {
    pub const ALL: [Message; 14] = [
        Message::Cancel,
        Message::Complete,
        Message::Close,
        Message::Compensate,
        Message::Failed,
        Message::Exited,
        Message::NotCompleted,
        Message::Exit,
        Message::Completed,
        Message::Fail,
        Message::CannotComplete,
        Message::Canceled,
        Message::Closed,
        Message::Compensated,
    ];

    // As a record has it: by name, since `u8::from` would not say at a call which number is meant.
    pub fn number(self) -> u8
        ensures { result ≡ message_number self }
    {
        self as u8
    }

    // As a journal spells it: bytes and no `Display`, since a field of a journal is compared with it.
    pub fn name(self) -> &'static [u8]
        ensures { result.now ≡ name_of (message_number self) }
    {
        match self {
            Message::Cancel => b"Cancel",
            Message::Complete => b"Complete",
            Message::Close => b"Close",
            Message::Compensate => b"Compensate",
            Message::Failed => b"Failed",
            Message::Exited => b"Exited",
            Message::NotCompleted => b"NotCompleted",
            Message::Exit => b"Exit",
            Message::Completed => b"Completed",
            Message::Fail => b"Fail",
            Message::CannotComplete => b"CannotComplete",
            Message::Canceled => b"Canceled",
            Message::Closed => b"Closed",
            Message::Compensated => b"Compensated",
        }
    }
}

// A number that is no message's.
#[derive(Clone, Copy, Debug, PartialEq, Eq)]
pub struct NoMessage(pub u8);

// From a record's number.
impl TryFrom<u8> for Message {
    type Error = NoMessage;

    ghost try_from_gives = { MessageOf };

    fn try_from(number: u8) -> Result<Self, NoMessage> {
        match number {
            1 => Ok(Message::Cancel),
            2 => Ok(Message::Complete),
            3 => Ok(Message::Close),
            4 => Ok(Message::Compensate),
            5 => Ok(Message::Failed),
            6 => Ok(Message::Exited),
            7 => Ok(Message::NotCompleted),
            8 => Ok(Message::Exit),
            9 => Ok(Message::Completed),
            10 => Ok(Message::Fail),
            11 => Ok(Message::CannotComplete),
            12 => Ok(Message::Canceled),
            13 => Ok(Message::Closed),
            14 => Ok(Message::Compensated),
            _ => Err(NoMessage(number)),
        }
    }
}

// By the numbers of `rules::RECEIVED` and `rules::SENT`, which are numbers there since any byte may be a way.
#[derive(Clone, Copy, Debug, PartialEq, Eq)]
pub enum Way {
    Got = 0,
    Sent = 1,
}

impl Way {
    // As a record has it: by name, since `u8::from` would not say at a call which number is meant.
    pub fn number(self) -> u8
        ensures { result ≡ way_number self }
    {
        self as u8
    }

    // As a journal spells it: bytes and no `Display`, since a field of a journal is compared with it.
    pub fn name(self) -> &'static [u8]
        ensures { result.now ≡ way_name (way_number self) }
    {
        match self {
            Way::Got => b"got",
            Way::Sent => b"sent",
        }
    }
}

// The message that a field names.
pub fn message_named(part: &[u8]) -> Option<Message>
    ensures { message_told result ≡ message_named part.now }
{
    for message in Message::ALL {
        if part == message.name() {
            return Some(message);
        }
    }
    None
}

// The way that a field names.
#[tactic(auto, using(crate::proofs::Named::named_eq))]
pub fn way_named(part: &[u8]) -> Option<Way>
    ensures { way_told result ≡ way_named part.now }
{
    if part == Way::Got.name() {
        Some(Way::Got)
    } else if part == Way::Sent.name() {
        Some(Way::Sent)
    } else {
        None
    }
}
