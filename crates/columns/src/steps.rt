// One step from any position: what stands there, and the position after it.
ghost use Rattle.std.specs.Prelude.{◌≡◌, ℕ, List, [], ◌∷◌};
ghost use Rattle.wire.specs.Readers.{Reads};
ghost use Rattle.message.specs.Layout.{Field, column, id, read_group};
ghost use Rattle.message.specs.Kinds.{column_fields};
ghost use Rattle.columns.specs.Steps.{column_of, relation_column_of, relation_of, item_step};
ghost use Rattle.columns.specs.Code.{item_field};

use crate::{Column, Position, RelationColumn, Step, TruncatedRelation};
use message::fields;
use wire::{Reader, Refusal, Span};

// What can be stepped through: a group of fields, and what its numbers make.
pub trait Item: Copy {
    ghost fields: { List Field };

    ghost of: { List ℕ → Self };

    fn read(r: &mut Reader) -> Result<Self, Refusal>
        ensures { Reads (item_field fields of r.old.bytes.now r.old.next) r.old result r.new };
}

impl Item for Column {
    ghost fields = { column ∷ [] };

    ghost of = { column_of };

    #[tactic(auto, using(reader::proofs::Stops::column_stops, wire::proofs::Given::stopped), unfolding(message::specs::Layout::column_end, message::specs::Layout::column_value))]
    fn read(r: &mut Reader) -> Result<Self, Refusal> {
        let letter = fields::column_letter(r)?;
        if fields::has_value(letter) {
            let value = r.value()?;
            return Ok(Column { letter, value });
        }
        Ok(Column {
            letter,
            value: Span {
                start: 0,
                length: 0,
            },
        })
    }
}

impl Item for RelationColumn {
    ghost fields = { column_fields };

    ghost of = { relation_column_of };

    #[tactic(auto, unfolding(wire::specs::Fields::number_field, wire::specs::Fields::text_field))]
    fn read(r: &mut Reader) -> Result<Self, Refusal> {
        let key = r.number::<u8>(0, 1, Refusal::FIELD)?;
        let name = r.text()?;
        let type_oid = r.number::<u32>(0, u32::MAX, Refusal::FIELD)?;
        let modifier = r.number::<u32>(0, u32::MAX, Refusal::FIELD)?;
        Ok(RelationColumn {
            key,
            name,
            type_oid,
            modifier: modifier.cast_signed(),
        })
    }
}

impl Item for TruncatedRelation {
    ghost fields = { id ∷ [] };

    ghost of = { relation_of };

    fn read(r: &mut Reader) -> Result<Self, Refusal> {
        let oid = fields::id(r)?;
        Ok(TruncatedRelation { oid })
    }
}

// One step from any position: what stands there, that stepping is over, or reading's refusal.
pub fn item_at<T: Item>(message: &[u8], position: Position) -> Step<T>
    ensures { result ≡ item_step T.fields T.of message.now position }
{
    if position.left == 0 {
        return Step {
            item: Ok(None),
            next: position,
        };
    }
    let mut r = Reader {
        bytes: message,
        next: Ok(position.offset),
    };
    match T::read(&mut r) {
        Err(refusal) => Step {
            item: Err(refusal),
            next: position,
        },
        Ok(item) => Step {
            item: Ok(Some(item)),
            next: Position {
                offset: r.offset(),
                left: position.left - 1,
            },
        },
    }
}
