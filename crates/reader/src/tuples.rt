// Where a tuple ends: by plain offsets on the good path, and by the exact chain where that finds no end.
ghost use Rattle.std.specs.Prelude.{◌≡◌, [], ◌∷◌, ◌≤◌, length, Ok};
ghost use Rattle.wire.specs.Readers.{Reads};
ghost use Rattle.wire.specs.ValueEnd.{end_of};
ghost use Rattle.message.specs.Layout.{column, column_end, groups_end, tuple_end};
ghost use Rattle.message.specs.Messages.{largest};
ghost use Rattle.reader.specs.Old.{old_field};
ghost use Rattle.reader.specs.Passed.{tuple_field};
ghost use Rattle.reader.specs.Offset.{tuple_end_offset};

use crate::passing::{TupleColumn, groups_end};
use message::{OldTuple, fields};
use wire::{Cursor, Reader, Refusal};

// Where a good column ends; none where it is refused. In a message no length is too large for its sign. Whether the value can start where
// it should is asked first: so that start is known before the length is loaded, and the next column waits for one sum and not for two.
fn column_fast(s: &[u8], at: usize) -> Option<usize>
    requires { length s.now ≤ largest }
    ensures { result ≡ end_of (column_end s.now (Ok at)) }
{
    if s.len() <= at {
        return None;
    }
    let next = at + 1;
    match s[at] {
        b'n' | b'u' => Some(next),
        b't' | b'b' => {
            let value = at + 5;
            if s.len() < value {
                None
            } else {
                wire::value_end(s, next)
            }
        }
        _ => None,
    }
}

// Where `n` columns end; none where one is refused.
fn columns_fast(s: &[u8], first: usize, n: u16) -> Option<usize>
    requires { length s.now ≤ largest }
    ensures { result ≡ end_of (groups_end (column ∷ []) s.now n (Ok first)) }
{
    let mut at = first;
    for k in 0..n {
        at = column_fast(s, at)?;
    }
    Some(at)
}

// Where a tuple ends, its count included: none where it is refused, or where the slice is longer than any message.
pub fn tuple_end_offset(s: &[u8], start: usize) -> Option<usize>
    ensures { result ≡ tuple_end_offset s.now start }
{
    if message::LARGEST < s.len() {
        return None;
    }
    let mut r = Reader {
        bytes: s,
        next: Ok(start),
    };
    match fields::column_count(&mut r) {
        Err(_) => None,
        Ok(count) => columns_fast(s, start + 2, count),
    }
}

// The end of a tuple, its count included.
#[tactic(auto, unfolding(message::specs::Layout::tuple_end))]
pub fn tuple_end(s: &[u8], c: Cursor) -> Cursor
    ensures { result ≡ tuple_end s.now c }
{
    let mut r = Reader { bytes: s, next: c };
    let count = fields::column_count(&mut r)?;
    groups_end::<TupleColumn>(s, r.next, count as u32)
}

// The same, by the good path where it leads to an end.
fn tuple_after(s: &[u8], start: usize) -> Cursor
    ensures { result ≡ tuple_end s.now (Ok start) }
{
    match tuple_end_offset(s, start) {
        Some(end) => Ok(end),
        None => tuple_end(s, Ok(start)),
    }
}

// A tuple: where it starts.
#[tactic(auto, using(crate::proofs::Stops::tuple_stays))]
pub fn tuple(r: &mut Reader) -> Result<usize, Refusal>
    ensures { Reads (tuple_field r.old.bytes.now r.old.next) r.old result r.new }
{
    let start = r.next?;
    r.next = tuple_after(r.bytes, start);
    r.next?;
    Ok(start)
}

// The old tuple of an Update, where `K` or `O` stands.
#[tactic(auto, unfolding(crate::specs::Old::old_field, message::specs::Layout::optional, wire::specs::Fields::letter_field))]
pub fn old_tuple(r: &mut Reader) -> Result<OldTuple, Refusal>
    ensures { Reads (old_field r.old.bytes.now r.old.next) r.old result r.new }
{
    let start = r.next?;
    match r.letter(b"KO") {
        Err(_) => {
            r.next = Ok(start);
            Ok(OldTuple::Nothing)
        }
        Ok(b'K') => Ok(OldTuple::Key(tuple(r)?)),
        Ok(_) => Ok(OldTuple::Full(tuple(r)?)),
    }
}
