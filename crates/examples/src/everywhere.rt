// Reads binary values from any offset by any type, compares with what the second reader finds there, and writes them back.
use crate::answers::{self, Hex};
use crate::{Tally, keepers, text, writing};
use columns::{Position, Step};
use second_reader::Reason;
use values::{Bits, Value};
use wire::Refusal;

// An output has no more bytes than this.
const ROOM: usize = 256;

// The types that have numbers, and some that don't.
const TYPES: [u32; 11] = [16, 20, 21, 23, 700, 701, 1184, 0, 25, 1700, 0xFFFF_FFFF];

// Whether writing a value into so much room gives this answer and these bytes, and changes no other byte.
fn is_answered(
    value: Value,
    source: &[u8],
    room: usize,
    want: Result<usize, Refusal>,
    bytes: &[u8],
) -> bool {
    let mut out = [writing::GUARD; ROOM];
    let written = values::write_value(value, source, keepers::part(&mut out, room));
    written == want
        && out.starts_with(bytes)
        && writing::is_untouched(text::back(&out, bytes.len()))
}

// Whether a value that was read from the source is written as its bytes, and refused in one byte less of room.
fn is_written_back(value: Value, source: &[u8], bytes: &[u8]) -> bool {
    let size = bytes.len();
    let is_refused = size == 0 || is_answered(value, source, size - 1, Err(writing::OUTPUT), b"");
    is_refused
        && is_answered(value, source, size, Ok(size), bytes)
        && is_answered(value, source, size.wrapping_add(9), Ok(size), bytes)
}

// Whether a value is written right from a source that ends before it does: as its bytes where it is a number, and else refused.
fn is_cut(value: Value, source: &[u8], is_number: bool, bytes: &[u8]) -> bool {
    let size = bytes.len();
    if size == 0 {
        return true;
    }
    if is_number {
        return is_answered(value, source, size, Ok(size), bytes);
    }
    let short = Err(Refusal {
        number: Reason::Short.number(),
        offset: 0,
    });
    is_answered(value, source, size, short, b"") && is_answered(value, source, 0, short, b"")
}

// Whether the value of these bytes, which start at an offset and spell a number, has its bits and is written back.
fn is_value(value: Value, s: &[u8], start: usize, end: usize, spelled: u64) -> bool {
    let bytes = text::back(text::front(s, end), start);
    let cut = text::front(s, end.wrapping_sub(1));
    if !is_written_back(value, s, bytes) {
        return false;
    }
    match values::bits_of(value) {
        Bits::Number { width, number } => {
            width == bytes.len() && number == spelled && is_cut(value, cut, true, bytes)
        }
        Bits::Part {
            start: from,
            length,
        } => {
            from == start
                && length == bytes.len()
                && length as u64 == spelled
                && is_cut(value, cut, false, bytes)
        }
    }
}

// Whether a step gives what the second reader finds, and stays where it was on a refusal and where none is left.
pub fn agrees(s: &[u8], from: Position, type_oid: u32) -> bool {
    let Position { offset, left } = from;
    let Step { item, next } = values::typed_step(s, from, type_oid);
    let want = second_reader::read_value(s, offset, type_oid).map_err(answers::refusal);
    match (item, want) {
        (Ok(None), _) => left == 0 && next == from,
        (Err(refusal), Err(want)) => 0 < left && next == from && refusal == want,
        (Ok(Some(value)), Ok(want)) => {
            let after = Position {
                offset: want.at,
                left: left.wrapping_sub(1),
            };
            0 < left
                && next == after
                && is_value(value, s, offset.wrapping_add(5), want.at, want.value)
        }
        _ => false,
    }
}

fn is_found(rt: &impl Print, s: &[u8], offset: usize, type_oid: u32) -> bool {
    let is_agreed = [1, usize::MAX, 0].iter().all(|left| {
        let from = Position {
            offset,
            left: *left,
        };
        agrees(s, from, type_oid)
    });
    if !is_agreed {
        let bytes = Hex(s);
        let _ = println!(rt; "  {bytes} at {offset} by type {type_oid}");
    }
    is_agreed
}

fn run_types(rt: &impl Print, tally: &mut Tally, s: &[u8], offset: usize) {
    for type_oid in TYPES {
        tally.count(is_found(rt, s, offset, type_oid));
    }
}

// From each offset, from those past the end, and from the last that there is, by every type.
pub fn run(rt: &impl Print, tally: &mut Tally, s: &[u8]) {
    run_types(rt, tally, s, usize::MAX);
    for at in 0..s.len() + 2 {
        run_types(rt, tally, s, at);
    }
}
