// A binary value read by its type, and one step past it from any position.
ghost use Rattle.std.specs.Prelude.{◌≡◌, ◌+◌, ◌≤◌, length, Ok};
ghost use Rattle.wire.specs.Readers.{given, stands};
ghost use Rattle.wire.specs.Fields.{number_field};
ghost use Rattle.values.specs.Types.{row_of, float4_of, float8_of, value_of, typed_value};
ghost use Rattle.values.specs.AsRead.{binary_field, typed_of};
ghost use Rattle.values.specs.Steps.{typed_step};

use crate::{Value, ValueKind, kinds};
use columns::{Position, Step};
use wire::{Reader, Refusal};

// Two functions for the two floats: each has its own constant, std type and pair of values, and nothing else.

// The value of a pattern of 32 bits. Without the sign a NaN's pattern is above the infinity's.
fn float4_of(n: u32) -> Value
    ensures { result ≡ float4_of n }
{
    if 0x7F80_0000 < n % 0x8000_0000 {
        Value::Float4Nan(n)
    } else {
        let x = f32::from_bits(n);
        Value::Float4(x)
    }
}

fn float8_of(n: u64) -> Value
    ensures { result ≡ float8_of n }
{
    if 0x7FF0_0000_0000_0000 < n % 0x8000_0000_0000_0000 {
        Value::Float8Nan(n)
    } else {
        let x = f64::from_bits(n);
        Value::Float8(x)
    }
}

// The value of `count` bytes at `start` that spell `number`.
fn valued(kind: ValueKind, start: usize, count: usize, number: u64) -> Value
    requires { number ≤ (row_of kind).most }
    ensures { result ≡ value_of kind start count number }
{
    match kind {
        ValueKind::Bool => Value::Bool(number == 1),
        ValueKind::Int2 => Value::Int2((number as u16).cast_signed()),
        ValueKind::Int4 => Value::Int4((number as u32).cast_signed()),
        ValueKind::Int8 => Value::Int8(number.cast_signed()),
        ValueKind::Float4 => float4_of(number as u32),
        ValueKind::Float8 => float8_of(number),
        ValueKind::TimestampTz => Value::TimestampTz(number.cast_signed()),
        ValueKind::Raw => Value::Raw {
            start,
            length: count,
        },
    }
}

// The number of as many bytes as the kind's values have, at most the largest that they may spell.
fn number_of(message: &[u8], kind: ValueKind, start: usize) -> Result<u64, Refusal>
    requires { start ≤ length message.now }
    ensures { result ≡ given (number_field (row_of kind).width 0 (row_of kind).most 17 message.now (Ok start)) }
{
    let mut r = Reader {
        bytes: message,
        next: Ok(start),
    };
    match kind {
        ValueKind::Bool => Ok(r.number::<u8>(0, 1, Refusal::VALUE)? as u64),
        ValueKind::Int2 => Ok(r.number::<u16>(0, u16::MAX, Refusal::VALUE)? as u64),
        ValueKind::Int4 | ValueKind::Float4 => {
            Ok(r.number::<u32>(0, u32::MAX, Refusal::VALUE)? as u64)
        }
        ValueKind::Int8 | ValueKind::Float8 | ValueKind::TimestampTz => {
            r.number::<u64>(0, u64::MAX, Refusal::VALUE)
        }
        ValueKind::Raw => Ok(0),
    }
}

// The value of `count` bytes at `start`, read as its type says.
fn typed_value(
    message: &[u8],
    kind: ValueKind,
    start: usize,
    count: usize,
) -> Result<Value, Refusal>
    requires { start + count ≤ length message.now }
    ensures { result ≡ typed_value message.now kind start count }
{
    if !kinds::has_width(kind, count) {
        return Err(Refusal {
            number: Refusal::VALUE,
            offset: start,
        });
    }
    let number = number_of(message, kind, start)?;
    Ok(valued(kind, start, count, number))
}

// The value of a `b` column.
#[tactic(auto, unfolding(wire::specs::Fields::value_field, wire::specs::Fields::number_field, wire::specs::Fields::bytes_field))]
fn typed_item(r: &mut Reader, type_oid: u32) -> Result<Value, Refusal>
    ensures { (result ≡ typed_of r.old.bytes.now type_oid (binary_field r.old.bytes.now r.old.next)) × (r.new ≡ stands r.old (binary_field r.old.bytes.now r.old.next).next) }
{
    r.letter(b"b")?;
    let value = r.value()?;
    typed_value(
        r.bytes,
        kinds::kind_of_type(type_oid),
        value.start,
        value.length,
    )
}

// One step past a `b` column, read by its type OID. Another letter is refused there; so is a value that its type forbids. After a
// refusal, and when the tuple is over, stepping stands where it was.
pub fn typed_step(message: &[u8], position: Position, type_oid: u32) -> Step<Value>
    ensures { result ≡ typed_step message.now position type_oid }
{
    if position.left == 0 {
        return Step {
            item: Ok(None),
            next: position,
        };
    }
    let mut r = Reader {
        bytes: message,
        next: Ok(position.offset),
    };
    match typed_item(&mut r, type_oid) {
        Err(refusal) => Step {
            item: Err(refusal),
            next: position,
        },
        Ok(value) => Step {
            item: Ok(Some(value)),
            next: Position {
                offset: r.offset(),
                left: position.left - 1,
            },
        },
    }
}
