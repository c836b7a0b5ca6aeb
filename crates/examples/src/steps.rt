// Steps through what a message has, and from made-up positions, and compares with what the second reader finds there.

use crate::answers::{self, Answer, Place};
use crate::text;
use columns::{Column, Position, RelationColumn, TruncatedRelation, Which};
use message::Version;
use second_reader::{Reason, Step, Values};
use wire::{Refusal, Span};

// What is stepped through.
#[derive(Clone, Copy, PartialEq, Eq)]
enum Part {
    OldTuple,
    NewTuple,
    Columns,
    Oids,
}

// Why a step gave nothing: all were passed, a column is not what stands there, or it was refused.
#[derive(Clone, Copy, PartialEq, Eq)]
enum Stop {
    Over,
    Wrong,
    Refused(Refusal),
}

// What a step gave, as the second reader counts it, and the position after it.
#[derive(Clone, Copy)]
struct Taken {
    found: Result<Step, Stop>,
    next: Position,
}

impl Taken {
    fn is_over(self, offset: usize) -> bool {
        self.found == Err(Stop::Over) && self.next == Position { offset, left: 0 }
    }
}

fn value_at(values: Values, place: usize) -> u64 {
    values.as_slice().get(place).copied().unwrap_or(0)
}

// What a step passed.
fn passed<T>(item: Result<Option<T>, Refusal>) -> Result<T, Stop> {
    item.map_err(Stop::Refused)?.ok_or(Stop::Over)
}

// Whether a column has the letter that stands at the offset, and its value lies between the length and the next column.
fn is_column(s: &[u8], offset: usize, end: usize, column: Column) -> bool {
    let Column {
        letter,
        value: Span { start, length },
    } = column;
    if letter != text::byte_at(s, offset) {
        return false;
    }
    if letter == Column::NULL || letter == Column::UNCHANGED {
        return start == 0 && length == 0;
    }
    start == offset.wrapping_add(5) && start.wrapping_add(length) == end
}

// What a column is, which starts at an offset and ends at another.
fn column_found(
    s: &[u8],
    offset: usize,
    end: usize,
    item: Result<Option<Column>, Refusal>,
) -> Result<Step, Stop> {
    let column = passed(item)?;
    if !is_column(s, offset, end, column) {
        return Err(Stop::Wrong);
    }
    Ok(Step {
        at: end,
        value: column.value.length as u64,
    })
}

fn take_column(s: &[u8], from: Position) -> Taken {
    let columns::Step { item, next } = columns::item_at::<Column>(s, from);
    Taken {
        found: column_found(s, from.offset, next.offset, item),
        next,
    }
}

// The numbers of a Relation's column that ends at an offset, summed, if its modifier has the bits that stand there.
fn column_sum(s: &[u8], end: usize, column: RelationColumn) -> u64 {
    let last = second_reader::read_at(s, end.wrapping_sub(4), b"w", 1);
    let bits = last.map_or(0, |step| step.value & 0xFFFF_FFFF);
    if column.modifier != (bits as u32).cast_signed() {
        return 0;
    }
    let numbers = u64::from(column.key) + u64::from(column.type_oid) + bits;
    numbers.wrapping_add(column.name.length as u64)
}

fn take_relation_column(s: &[u8], from: Position) -> Taken {
    let columns::Step { item, next } = columns::item_at::<RelationColumn>(s, from);
    let at = next.offset;
    let found = passed(item).map(|column| Step {
        at,
        value: column_sum(s, at, column),
    });
    Taken { found, next }
}

fn take_oid(s: &[u8], from: Position) -> Taken {
    let columns::Step { item, next } = columns::item_at::<TruncatedRelation>(s, from);
    let found = passed(item).map(|relation| Step {
        at: next.offset,
        value: u64::from(relation.oid),
    });
    Taken { found, next }
}

impl Part {
    const ALL: [Part; 4] = [Part::OldTuple, Part::NewTuple, Part::Columns, Part::Oids];

    fn take(self, s: &[u8], from: Position) -> Taken {
        match self {
            Part::OldTuple | Part::NewTuple => take_column(s, from),
            Part::Columns => take_relation_column(s, from),
            Part::Oids => take_oid(s, from),
        }
    }

    // The codes of what is stepped through.
    fn codes(self) -> &'static [u8] {
        match self {
            Part::OldTuple | Part::NewTuple => b"t",
            Part::Columns => b"1sww",
            Part::Oids => b"i",
        }
    }

    // What the second reader finds from an offset on.
    fn found(self, s: &[u8], at: usize, times: u64) -> Result<Step, Stop> {
        let found = second_reader::read_at(s, at, self.codes(), times);
        found.map_err(answers::refusal).map_err(Stop::Refused)
    }

    // Where among the values of a kind the start stands, if the kind has one.
    fn place(self, letter: u8) -> Option<usize> {
        match (self, letter) {
            (Part::OldTuple, b'U' | b'D') => Some(4),
            (Part::NewTuple, b'I') => Some(3),
            (Part::NewTuple, b'U') => Some(6),
            (Part::Columns, b'R') => Some(9),
            (Part::Oids, b'T') => Some(4),
            _ => None,
        }
    }

    // The start that is wanted, by what the second reader saw. A tuple's columns stand behind its count.
    fn wanted(self, s: &[u8], seen: Answer) -> Result<Position, Refusal> {
        let values = seen?.values;
        let nothing = Refusal {
            number: Reason::Field.number(),
            offset: 0,
        };
        let place = self.place(text::byte_at(s, 0)).ok_or(nothing)?;
        let offset = value_at(values, place) as usize;
        if offset == 0 {
            return Err(nothing);
        }
        let (offset, left) = match self {
            Part::OldTuple | Part::NewTuple => {
                (
                    offset.wrapping_add(2),
                    value_at(values, place.wrapping_add(1)),
                )
            }
            Part::Columns => (offset, value_at(values, 8)),
            Part::Oids => (offset, value_at(values, 2)),
        };
        Ok(Position {
            offset,
            left: left as usize,
        })
    }

    fn started(self, place: Place, s: &[u8]) -> Result<Position, Refusal> {
        let Place {
            version: number,
            in_block,
        } = place;
        let version = Version { number };
        match self {
            Part::OldTuple => columns::tuple_start(version, in_block, s, Which::Old),
            Part::NewTuple => columns::tuple_start(version, in_block, s, Which::New),
            Part::Columns => columns::relation_start(version, in_block, s),
            Part::Oids => columns::oid_start(version, in_block, s),
        }
    }
}

// All steps from a position: what they found, summed, and the position after them.
fn walk(part: Part, s: &[u8], from: Position) -> Result<(u64, Position), Stop> {
    let mut next = from;
    let mut value: u64 = 0;
    for _ in 0..from.left {
        let taken = part.take(s, next);
        value = value.wrapping_add(taken.found?.value);
        next = taken.next;
    }
    Ok((value, next))
}

// Whether all steps from a position find what the second reader finds, and then no more.
fn is_walk(part: Part, s: &[u8], from: Position) -> bool {
    let Ok((value, next)) = walk(part, s, from) else {
        return false;
    };
    let end = next.offset;
    if part.found(s, from.offset, from.left as u64) != Ok(Step { at: end, value }) {
        return false;
    }
    let again = part.take(s, next);
    let once_more = part.take(s, again.next);
    next.left == 0 && again.found == Err(Stop::Over) && once_more.is_over(end)
}

// Whether one step from a position finds what the second reader finds, and on a refusal stays.
fn is_step(part: Part, s: &[u8], offset: usize, left: usize) -> bool {
    let from = Position { offset, left };
    let Taken { found, next } = part.take(s, from);
    let want = part.found(s, offset, 1);
    let after = want.map_or(
        from,
        |step| Position {
            offset: step.at,
            left: left.wrapping_sub(1),
        },
    );
    found == want && next == after
}

// Whether stepping starts where it is wanted, and goes to the end.
fn is_stepped(part: Part, place: Place, s: &[u8], seen: Answer) -> bool {
    let started = part.started(place, s);
    started == part.wanted(s, seen) && started.map_or(true, |from| is_walk(part, s, from))
}

// Whether stepping through each part of a message, or its refusal, is as the second reader saw the message.
pub fn agrees(place: Place, s: &[u8], seen: Answer) -> bool {
    Part::ALL
        .iter()
        .all(|part| is_stepped(*part, place, s, seen))
}

// Whether the column reader gives the column that a step gives, and the very part of the message that is its value.
fn is_first(s: &[u8], offset: usize, left: usize) -> bool {
    let Taken { found, next } = take_column(s, Position { offset, left });
    let first = columns::first(s, offset, left);
    let value = found.map_or(0, |step| step.value);
    column_found(s, offset, next.offset, first) == found
        && columns::column_part(s, first).len() as u64 == value
}

// Whether steps from an offset, with any number left, are right.
pub fn agrees_at(s: &[u8], offset: usize) -> bool {
    [Part::NewTuple, Part::Columns, Part::Oids]
        .iter()
        .all(|part| is_from(*part, s, offset))
        && is_first(s, offset, 1)
        && is_first(s, offset, 0)
}

fn is_from(part: Part, s: &[u8], offset: usize) -> bool {
    let none_left = part.take(s, Position { offset, left: 0 });
    none_left.is_over(offset) && is_step(part, s, offset, 1) && is_step(part, s, offset, usize::MAX)
}
