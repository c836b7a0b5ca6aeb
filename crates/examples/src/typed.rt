// Reads binary values by their types, as lines say:
//
//   v type offset left bytes = number offset: letter number
//
// steps from a position in the bytes. The number and offset are a refusal's, or 0 and where stepping stands after it. Behind them stands
// what was read:
//
//   b  s  i  l  z  a bool, int2, int4, int8 or timestamptz: its number
//   f  d  a float4 or float8: m e stands for m times 2 to the power of e, which is infinite from 1024 on
//   F  D  a NaN of these: its bits
//   r     a value of another type: its start and length
//   o     no value: none was left
use crate::text::{self, Bytes, Text};
use crate::wanted::Want;
use crate::{Tally, everywhere};
use columns::{Position, Step};
use values::{Value, ValueKind};

// A case beside its bytes, and its answer.
#[derive(Clone, Copy)]
struct Case<'a> {
    type_oid: u32,
    from: Position,
    answer: Text<'a>,
}

// The case of a line, and its bytes.
fn parse_case<'a>(line: &'a [u8], message: &mut Bytes) -> Option<Case<'a>> {
    let mut text = Text::behind_first(line);
    let oid = text.decimal();
    let offset = text.decimal();
    let left = text.decimal();
    text.hex(b'=', message)?;
    text.skip(1);
    Some(Case {
        type_oid: (oid? & 0xFFFF_FFFF) as u32,
        from: Position {
            offset: offset? as usize,
            left: left? as usize,
        },
        answer: text,
    })
}

fn letter_of(kind: ValueKind) -> u8 {
    match kind {
        ValueKind::Bool => b'b',
        ValueKind::Int2 => b's',
        ValueKind::Int4 => b'i',
        ValueKind::Int8 => b'l',
        ValueKind::Float4 => b'f',
        ValueKind::Float8 => b'd',
        ValueKind::TimestampTz => b'z',
        ValueKind::Raw => b'r',
    }
}

// Whether a value is the one that is wanted, and of its kind: a NaN's letter is its kind's, in capitals.
fn is_told(value: Value, want: Want) -> bool {
    letter_of(values::kind_of(value)) == want.letter.to_ascii_lowercase() && want.is_value(value)
}

// Whether a step gives what stands in a line.
fn is_stepped(case: Case, bytes: &[u8]) -> bool {
    let Case {
        type_oid,
        from,
        answer: mut text,
    } = case;
    let (Some(number), Some(offset)) = (text.decimal(), text.decimal()) else {
        return false;
    };
    text.skip(1);
    let at = offset as usize;
    let Step { item, next } = values::typed_step(bytes, from, type_oid);
    match item {
        Ok(Some(value)) => {
            let left = from.left.wrapping_sub(1);
            number == 0 && next == Position { offset: at, left } && is_told(value, Want::read(text))
        }
        Ok(None) => {
            let letter = Want::read(text).letter;
            let over = Position {
                offset: at,
                left: 0,
            };
            number == 0 && letter == b'o' && next == over && at == from.offset
        }
        Err(refusal) => {
            number == u64::from(refusal.number) && at == refusal.offset && next == from
        }
    }
}

// The value of a line.
pub fn run_case(rt: &impl Print, tally: &mut Tally, line: &[u8], message: &mut Bytes) {
    let case = parse_case(line, message);
    let bytes = message.as_slice();
    let is_good = case.is_some_and(|case| {
        is_stepped(case, bytes) && everywhere::agrees(bytes, case.from, case.type_oid)
    });
    if !is_good {
        crate::print(rt, b"  ");
        crate::print(rt, line);
    }
    tally.count(is_good);
}

// The bytes of a line from every offset.
pub fn run_everywhere(rt: &impl Print, tally: &mut Tally, line: &[u8], message: &mut Bytes) {
    parse_case(line, message);
    everywhere::run(rt, tally, message.as_slice());
}
