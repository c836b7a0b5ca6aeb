// Groups of fields, one after another: columns of a tuple or a Relation, OIDs of a Truncate.
ghost use Rattle.std.specs.Prelude.{◌≡◌, List, [], ◌∷◌};
ghost use Rattle.wire.specs.Readers.{Reads};
ghost use Rattle.message.specs.Layout.{Field, column, id, read_group, groups_end};
ghost use Rattle.message.specs.Kinds.{column_fields};
ghost use Rattle.reader.specs.Passed.{passed};

use message::fields;
use wire::{Cursor, Reader, Refusal};

// A group of fields that is passed over.
pub trait Group {
    ghost fields: { List Field };

    fn pass(r: &mut Reader) -> Result<(), Refusal>
        ensures { Reads (passed (read_group fields r.old.bytes.now r.old.next).next) r.old result r.new };
}

// A column of a tuple.
pub struct TupleColumn;

impl Group for TupleColumn {
    ghost fields = { column ∷ [] };

    #[tactic(auto, using(crate::proofs::Stops::column_stops, wire::proofs::Given::stopped), unfolding(message::specs::Layout::column_end))]
    fn pass(r: &mut Reader) -> Result<(), Refusal> {
        let letter = fields::column_letter(r)?;
        if fields::has_value(letter) {
            r.value()?;
        }
        Ok(())
    }
}

// A column of a Relation.
pub struct RelationColumn;

impl Group for RelationColumn {
    ghost fields = { column_fields };

    #[tactic(auto, unfolding(wire::specs::Fields::number_field, wire::specs::Fields::text_field))]
    fn pass(r: &mut Reader) -> Result<(), Refusal> {
        r.number::<u8>(0, 1, Refusal::FIELD)?;
        r.text()?;
        r.number::<u32>(0, u32::MAX, Refusal::FIELD)?;
        r.number::<u32>(0, u32::MAX, Refusal::FIELD)?;
        Ok(())
    }
}

// A relation of a Truncate.
pub struct RelationOid;

impl Group for RelationOid {
    ghost fields = { id ∷ [] };

    fn pass(r: &mut Reader) -> Result<(), Refusal> {
        fields::id(r)?;
        Ok(())
    }
}

// The end of `n` groups, or the refusal that stops reading them, however many are left.
pub fn groups_end<G: Group>(s: &[u8], c: Cursor, n: u32) -> Cursor
    ensures { result ≡ groups_end G.fields s.now n c }
{
    let mut r = Reader { bytes: s, next: c };
    for k in 0..n {
        G::pass(&mut r)?;
    }
    r.next
}
