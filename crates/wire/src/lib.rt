#![tactic(auto)]
// Numbers, letters, texts and lengths in a slice of bytes.
mod number;
mod reader;
mod zeros;

pub use number::Number;
pub use reader::{Reader, contains, value_end};

// Why and where a message was refused: the number of the refusal table, and an offset. Numbers stay: `Reader::number` promises its field
// for any refusal number, `number_field` and the rules say each refusal by its number in the table, and C is given it.
#[derive(Clone, Copy, PartialEq, Eq)]
pub struct Refusal {
    pub number: u8,
    pub offset: usize,
}

impl Refusal {
    // The version is unknown, or has no stream blocks to read or write in.
    pub const VERSION: u8 = 1;
    // A field goes past the end.
    pub const SHORT: u8 = 2;
    // The first byte is no kind of this version.
    pub const KIND: u8 = 3;
    // A field holds what its layout forbids.
    pub const FIELD: u8 = 4;
    // Bytes are left after the last field.
    pub const LEFT_OVER: u8 = 5;
    // A count is outside its range, or the message is too long.
    pub const RANGE: u8 = 6;
    // The kind can't stand here.
    pub const PLACE: u8 = 7;
    // An xid or LSN doesn't fit what is open.
    pub const TRANSACTION: u8 = 8;
    // A relation has no visible announcement.
    pub const RELATION: u8 = 9;
    // The shape differs from the announcement.
    pub const SHAPE: u8 = 10;
    // No room for an announcement.
    pub const ANNOUNCEMENTS: u8 = 11;
    // No room for a streamed transaction.
    pub const STREAMS: u8 = 12;
    // The output is shorter than the message to be written, or than the records to be released.
    pub const OUTPUT: u8 = 13;
    // No room in the keeper's buffer for a change.
    pub const KEEPER: u8 = 14;
    // A binary value has the wrong length for its type, or is a bool that is neither 0 nor 1.
    pub const VALUE: u8 = 17;
}

// Where reading stands, or the refusal that stopped it.
pub type Cursor = Result<usize, Refusal>;

// A part of a slice.
#[derive(Clone, Copy, PartialEq, Eq)]
pub struct Span {
    pub start: usize,
    pub length: usize,
}
