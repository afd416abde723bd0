// The messages' numbers. A coordinator sends the first seven and a participant the others.
// An event's message may be any byte, and `entry_at` answers for each: so these are numbers.
pub const CANCEL: u8 = 1;

pub const COMPLETE: u8 = 2;

pub const CLOSE: u8 = 3;

pub const COMPENSATE: u8 = 4;

pub const FAILED: u8 = 5;

pub const EXITED: u8 = 6;

pub const NOT_COMPLETED: u8 = 7;

pub const EXIT: u8 = 8;

pub const COMPLETED: u8 = 9;

pub const FAIL: u8 = 10;

pub const CANNOT_COMPLETE: u8 = 11;

pub const CANCELED: u8 = 12;

pub const CLOSED: u8 = 13;

pub const COMPENSATED: u8 = 14;
