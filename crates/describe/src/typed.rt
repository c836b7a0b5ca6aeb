// A binary value in words: its type and its number where its type is listed, else its bytes.
use crate::floats::{Float4, Float8};
use crate::text::Hex;
use crate::time::Time;
use columns::Position;
use std::fmt;
use values::{Value, ValueKind};
use wire::Refusal;

// The patterns of the usual NaNs.
const NAN4: u32 = 0x7FC0_0000;

const NAN8: u64 = 0x7FF8_0000_0000_0000;

// A binary column of a message: its bytes, and what reading them by their type gives.
#[derive(Clone, Copy)]
pub struct Binary<'a> {
    part: &'a [u8],
    type_oid: u32,
    value: Result<Option<Value>, Refusal>,
}

// A NaN, with its bytes where they are not the usual ones.
#[derive(Clone, Copy)]
struct Nan<'a>(Option<&'a [u8]>);

// The last and the first time stand for infinite ones.
#[derive(Clone, Copy)]
struct Timestamp(i64);

// What the bytes of a type's values are.
#[derive(Clone, Copy)]
struct Form(ValueKind);

impl fmt::Display for Nan<'_> {
    fn fmt<W: fmt::Write>(&self, f: &mut fmt::Formatter<W>) -> fmt::Result {
        match self.0 {
            None => write!(f, "NaN"),
            Some(part) => write!(f, "NaN {}", Hex(part)),
        }
    }
}

impl fmt::Display for Timestamp {
    fn fmt<W: fmt::Write>(&self, f: &mut fmt::Formatter<W>) -> fmt::Result {
        match self.0 {
            i64::MAX => write!(f, "infinity"),
            i64::MIN => write!(f, "-infinity"),
            time => write!(f, "{}", Time(time)),
        }
    }
}

impl fmt::Display for Form {
    fn fmt<W: fmt::Write>(&self, f: &mut fmt::Formatter<W>) -> fmt::Result {
        f.write_str(match self.0 {
            ValueKind::Bool => "a bool is 0x00 or 0x01",
            ValueKind::Int2 => "an int2 has 2 bytes",
            ValueKind::Int4 => "an int4 has 4 bytes",
            ValueKind::Int8 => "an int8 has 8 bytes",
            ValueKind::Float4 => "a float4 has 4 bytes",
            ValueKind::Float8 => "a float8 has 8 bytes",
            ValueKind::TimestampTz => "a timestamptz has 8 bytes",
            ValueKind::Raw => "",
        })
    }
}

impl<'a> Binary<'a> {
    // The column at a position of a message, whose value is the part.
    pub fn at(bytes: &[u8], from: Position, type_oid: u32, part: &'a [u8]) -> Binary<'a> {
        Binary {
            part,
            type_oid,
            value: values::typed_step(bytes, from, type_oid).item,
        }
    }

    fn nan(self, is_usual: bool) -> Nan<'a> {
        Nan(if is_usual { None } else { Some(self.part) })
    }

    fn write_value<W: fmt::Write>(self, f: &mut fmt::Formatter<W>, value: Value) -> fmt::Result {
        match value {
            Value::Bool(b) => write!(f, "bool {b}"),
            Value::Int2(n) => write!(f, "int2 {n}"),
            Value::Int4(n) => write!(f, "int4 {n}"),
            Value::Int8(n) => write!(f, "int8 {n}"),
            Value::Float4(x) => write!(f, "float4 {}", Float4(x)),
            Value::Float4Nan(n) => write!(f, "float4 {}", self.nan(n == NAN4)),
            Value::Float8(x) => write!(f, "float8 {}", Float8(x)),
            Value::Float8Nan(n) => write!(f, "float8 {}", self.nan(n == NAN8)),
            Value::TimestampTz(n) => write!(f, "timestamptz {}", Timestamp(n)),
            Value::Raw { .. } => write!(f, "binary {}", Hex(self.part)),
        }
    }
}

impl fmt::Display for Binary<'_> {
    fn fmt<W: fmt::Write>(&self, f: &mut fmt::Formatter<W>) -> fmt::Result {
        match self.value {
            Ok(Some(value)) => self.write_value(f, value),
            Ok(None) => Ok(()),
            Err(Refusal { number, offset }) => {
                let part = Hex(self.part);
                let form = Form(values::kind_of_type(self.type_oid));
                write!(f, "binary {part} (refused {number} at {offset}: {form})")
            }
        }
    }
}
