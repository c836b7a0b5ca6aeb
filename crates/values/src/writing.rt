// A value's bits, and its bytes at the front of an output.
ghost use Rattle.std.specs.Prelude.{◌≡◌};
ghost use Rattle.std.specs.Float.{binary32, binary64};
ghost use Rattle.std.specs.Float.Ieee.{to_bits};
ghost use Rattle.wire.specs.Cursors.{refuse};
ghost use Rattle.writer.specs.Answer.{Settles};
ghost use Rattle.values.specs.Types.{kind_of, bits_of};
ghost use Rattle.values.specs.Writes.{written, write_value};

use crate::{Bits, Value, ValueKind};
use wire::Refusal;

// Two functions for the two floats, as in `reading`.

// The pattern of a float. A NaN that was made up, which has no pattern of its own, gets the usual one.
fn float4_bits(x: f32) -> u32
    ensures { result ≡ to_bits binary32 x }
{
    if x != x {
        return 0x7FC0_0000;
    }
    f32::to_bits(x)
}

fn float8_bits(x: f64) -> u64
    ensures { result ≡ to_bits binary64 x }
{
    if x != x {
        return 0x7FF8_0000_0000_0000;
    }
    f64::to_bits(x)
}

fn number(width: usize, number: u64) -> Bits
    ensures { result ≡ Bits.Number width number }
{
    Bits::Number { width, number }
}

// What a value is written as.
pub fn bits_of(value: Value) -> Bits
    ensures { result ≡ bits_of value }
{
    match value {
        Value::Bool(b) => number(1, b as u64),
        Value::Int2(v) => number(2, v.cast_unsigned() as u64),
        Value::Int4(v) => number(4, v.cast_unsigned() as u64),
        Value::Int8(v) => number(8, v.cast_unsigned()),
        Value::Float4(x) => number(4, float4_bits(x) as u64),
        Value::Float4Nan(n) => number(4, n as u64),
        Value::Float8(x) => number(8, float8_bits(x)),
        Value::Float8Nan(n) => number(8, n),
        Value::TimestampTz(v) => number(8, v.cast_unsigned()),
        Value::Raw { start, length } => Bits::Part { start, length },
    }
}

// The kind that a value is of.
pub fn kind_of(value: Value) -> ValueKind
    ensures { result ≡ kind_of value }
{
    match value {
        Value::Bool(_) => ValueKind::Bool,
        Value::Int2(_) => ValueKind::Int2,
        Value::Int4(_) => ValueKind::Int4,
        Value::Int8(_) => ValueKind::Int8,
        Value::Float4(_) => ValueKind::Float4,
        Value::Float4Nan(_) => ValueKind::Float4,
        Value::Float8(_) => ValueKind::Float8,
        Value::Float8Nan(_) => ValueKind::Float8,
        Value::TimestampTz(_) => ValueKind::TimestampTz,
        Value::Raw { .. } => ValueKind::Raw,
    }
}

fn refused(number: u8) -> Result<usize, Refusal>
    ensures { result ≡ refuse number 0 }
{
    Err(Refusal { number, offset: 0 })
}

// The bytes at the front of an output, and how many they are.
pub fn write_bits(bits: Bits, source: &[u8], out: &mut [u8]) -> Result<usize, Refusal>
    ensures { Settles (written bits source.now) out.old result out.new }
{
    match bits {
        Bits::Number { width, number } => {
            if out.len() < width {
                return refused(Refusal::OUTPUT);
            }
            copying::lay_number(out, width, number);
            Ok(width)
        }
        Bits::Part { start, length } => {
            if source.len() < start {
                return refused(Refusal::SHORT);
            }
            if source.len() - start < length {
                return refused(Refusal::SHORT);
            }
            if out.len() < length {
                return refused(Refusal::OUTPUT);
            }
            let end = start + length;
            copying::lay_part(out, &source[start..end]);
            Ok(length)
        }
    }
}

// The bytes of a value at the front of an output, and how many they are.
pub fn write_value(value: Value, source: &[u8], out: &mut [u8]) -> Result<usize, Refusal>
    ensures { Settles (write_value value source.now) out.old result out.new }
{
    let bits = bits_of(value);
    write_bits(bits, source, out)
}
