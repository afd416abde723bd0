// The states' numbers. The last three are the split table's, and mean one thing at a coordinator, another at a participant.
// A seat's state may be any byte, and `entry_at` answers for each: so these are numbers.
pub const ACTIVE: u8 = 1;

pub const CANCELING: u8 = 2;

pub const CANCELING_COMPLETING: u8 = 3;

pub const COMPLETING: u8 = 4;

pub const COMPLETED: u8 = 5;

pub const CLOSING: u8 = 6;

pub const COMPENSATING: u8 = 7;

pub const FAILING: u8 = 8;

pub const FAILING_COMPENSATING: u8 = 9;

pub const NOT_COMPLETING: u8 = 10;

pub const EXITING: u8 = 11;

pub const ENDED: u8 = 12;

pub const ENDED_FAILED: u8 = 13;

pub const ENDED_EXITED: u8 = 14;

pub const ENDED_NOT_COMPLETED: u8 = 15;

pub const ENDED_CANCELED: u8 = 13;

pub const ENDED_CLOSED: u8 = 14;

pub const ENDED_COMPENSATED: u8 = 15;

pub const LAST: u8 = 15;
