#![tactic(auto)]
// Stepping through a tuple, a Relation's columns and a Truncate's OIDs: the words that it answers in, and a part of the message.
ghost use Rattle.columns.specs.Parts.{VeryPart};

use wire::{Refusal, Span};

mod readers;
mod starts;
mod steps;

pub use readers::{column_part, first};
pub use starts::{oid_start, relation_start, tuple_start};
pub use steps::{Item, item_at};

// Where stepping stands: an offset in the message, and how many are left.
#[derive(Clone, Copy, PartialEq, Eq)]
pub struct Position {
    pub offset: usize,
    pub left: usize,
}

// The tuples that a message may have. A Delete's tuple is its old one.
#[derive(Clone, Copy, PartialEq, Eq)]
pub enum Which {
    Old,
    New,
}

// What of a message can be stepped through: where its tuples start, and its columns' and OIDs' positions.
#[derive(Clone, Copy)]
pub struct Sections {
    pub old: Option<usize>,
    pub new: Option<usize>,
    pub columns: Result<Position, Refusal>,
    pub oids: Result<Position, Refusal>,
}

// A step: what stands at a position, none where stepping is over, or reading's refusal; and where stepping stands after it.
#[derive(Clone, Copy)]
pub struct Step<T> {
    pub item: Result<Option<T>, Refusal>,
    pub next: Position,
}

// A column of a tuple: its letter, and its value, which is the empty span at the front where it has none, as `column_of` says it; C is given
// the two numbers.
#[derive(Clone, Copy, PartialEq, Eq)]
pub struct Column {
    pub letter: u8,
    pub value: Span,
}

// The letters of a column: bytes of the format, of which C is given the one that stands there.
impl Column {
    pub const NULL: u8 = b'n';

    pub const UNCHANGED: u8 = b'u';

    pub const TEXT: u8 = b't';

    pub const BINARY: u8 = b'b';
}

// A column of a Relation. The key flag is 1 where the column is part of the key.
#[derive(Clone, Copy, PartialEq, Eq)]
pub struct RelationColumn {
    pub key: u8,
    pub name: Span,
    pub type_oid: u32,
    pub modifier: i32,
}

// A relation of a Truncate.
#[derive(Clone, Copy, PartialEq, Eq)]
pub struct TruncatedRelation {
    pub oid: u32,
}

// A column reader: the caller's message and a position in it.
#[derive(Drop)]
pub struct ColumnReader<'a> {
    pub message: &'a [u8],
    pub position: Position,
}

// A column, and the very part of the message that is its value.
#[derive(Drop)]
pub struct ColumnValue<'a> {
    pub column: Result<Option<Column>, Refusal>,
    pub value: &'a [u8],
}

// The very part of the message that a span is; the empty part where the message does not have it.
pub fn part(message: &[u8], span: Span) -> &[u8]
    ensures { VeryPart result message.entry span }
{
    let Span { start, length } = span;
    if message.len() < start {
        return &message[0..0];
    }
    if message.len() - start < length {
        return &message[0..0];
    }
    let end = start + length;
    &message[start..end]
}
