// What of a message can be stepped through, and where it starts. Version and block stay apart, as in `reader`.
ghost use Rattle.std.specs.Prelude.{◌≡◌};
ghost use Rattle.message.specs.Messages.{read_message};
ghost use Rattle.columns.specs.Starts.{old_offset, absent, with_tuples, sections_of, tuple_position, tuple_start, relation_start, oid_start};

use crate::{Position, Sections, Which};
use message::{Message, OldTuple, Version, fields};
use wire::{Reader, Refusal};

fn old_offset(old: OldTuple) -> Option<usize>
    ensures { result ≡ old_offset old }
{
    match old {
        OldTuple::Nothing => None,
        OldTuple::Key(start) | OldTuple::Full(start) => Some(start),
    }
}

// What is not in the message.
fn lacking() -> Result<Position, Refusal>
    ensures { result ≡ absent }
{
    Err(Refusal {
        number: Refusal::FIELD,
        offset: 0,
    })
}

// A message that has tuples at most.
fn tuples(old: Option<usize>, new: Option<usize>) -> Sections
    ensures { result ≡ with_tuples old new }
{
    Sections {
        old,
        new,
        columns: lacking(),
        oids: lacking(),
    }
}

// What of a message can be stepped through, and where it starts.
fn sections_of(m: Message) -> Sections
    ensures { result ≡ sections_of m }
{
    match m {
        Message::Insert(x) => tuples(None, Some(x.tuple)),
        Message::Update(x) => tuples(old_offset(x.old), Some(x.tuple)),
        Message::Delete(x) => tuples(Some(x.tuple), None),
        Message::Relation(x) => Sections {
            old: None,
            new: None,
            columns: Ok(Position {
                offset: x.columns,
                left: x.count as usize,
            }),
            oids: lacking(),
        },
        Message::Truncate(x) => Sections {
            old: None,
            new: None,
            columns: lacking(),
            oids: Ok(Position {
                offset: x.relations,
                left: x.count as usize,
            }),
        },
        _ => tuples(None, None),
    }
}

// The position at a tuple's first column, from where its count stands.
#[tactic(auto, unfolding(crate::specs::Starts::tuple_position))]
fn tuple_position(message: &[u8], found: Option<usize>) -> Result<Position, Refusal>
    ensures { result ≡ tuple_position message.now found }
{
    match found {
        None => lacking(),
        Some(start) => {
            let mut r = Reader {
                bytes: message,
                next: Ok(start),
            };
            let left = fields::column_count(&mut r).unwrap_or(0) as usize;
            Ok(Position {
                offset: r.offset(),
                left,
            })
        }
    }
}

// The start of stepping through a tuple: the message's own refusal first, then 4 at 0 for a tuple that it lacks.
pub fn tuple_start(
    version: Version,
    in_block: bool,
    message: &[u8],
    which: Which,
) -> Result<Position, Refusal>
    ensures { result ≡ tuple_start which message.now (read_message version in_block message.now) }
{
    let sections = sections_of(reader::read_message(version, in_block, message)?);
    match which {
        Which::Old => tuple_position(message, sections.old),
        Which::New => tuple_position(message, sections.new),
    }
}

// The start of stepping through a Relation's columns.
pub fn relation_start(version: Version, in_block: bool, message: &[u8]) -> Result<Position, Refusal>
    ensures { result ≡ relation_start (read_message version in_block message.now) }
{
    sections_of(reader::read_message(version, in_block, message)?).columns
}

// The start of stepping through a Truncate's OIDs.
pub fn oid_start(version: Version, in_block: bool, message: &[u8]) -> Result<Position, Refusal>
    ensures { result ≡ oid_start (read_message version in_block message.now) }
{
    sections_of(reader::read_message(version, in_block, message)?).oids
}
