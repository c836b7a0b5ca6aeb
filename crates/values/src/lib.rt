#![tactic(auto)]
// Binary values of the types whose values are numbers, read by a type OID and written back: the words that reading answers in.
mod kinds;
mod readers;
mod reading;
mod writing;

pub use kinds::{kind_of_type, row_of};
pub use readers::step_typed;
pub use reading::typed_step;
pub use writing::{bits_of, kind_of, write_bits, write_value};

// How the values of a type are read: as a number, or not at all.
#[derive(Clone, Copy)]
pub enum ValueKind {
    Bool,
    Int2,
    Int4,
    Int8,
    Float4,
    Float8,
    TimestampTz,
    Raw,
}

// A line of the table of types: the type's OID, how many bytes its values have, and the largest number that they may spell.
#[derive(Clone, Copy)]
pub struct TypeRow {
    pub oid: u32,
    pub width: usize,
    pub most: u64,
}

// A binary value with its number in it. A float holds each pattern that is no NaN's; a NaN's pattern is a case of its own, since
// the logic's floats have one NaN and no bits of it. A time is in microseconds since 2000-01-01.
#[derive(Clone, Copy)]
pub enum Value {
    Bool(bool),
    Int2(i16),
    Int4(i32),
    Int8(i64),
    Float4(f32),
    Float4Nan(u32),
    Float8(f64),
    Float8Nan(u64),
    TimestampTz(i64),
    Raw { start: usize, length: usize },
}

// What a value is written as: a number of so many bytes, or a part of the source.
#[derive(Clone, Copy)]
pub enum Bits {
    Number { width: usize, number: u64 },
    Part { start: usize, length: usize },
}
