#![tactic(auto, using(crate::proofs::Stops::tuple_stays, crate::proofs::Stops::groups_stay), unfolding(crate::specs::Old::old_field, message::specs::Layout::optional, message::specs::Messages::read_kind, message::specs::Layout::xid_field, wire::specs::Fields::number_field, wire::specs::Fields::letter_field, wire::specs::Fields::text_field, wire::specs::Fields::bytes_field, wire::specs::Fields::value_field))]
// The messages that describe tables and types: Relation and Type.
ghost use Rattle.std.specs.Prelude.{◌≡◌};
ghost use Rattle.message.specs.Layout.{groups_end};
ghost use Rattle.message.specs.Kinds.{column_fields, relation, type};
ghost use Rattle.message.specs.Messages.{read_kind};

use crate::framing;
use crate::passing::{RelationColumn, groups_end};
use message::{Message, Relation, Type, fields};
use wire::{Cursor, Reader, Refusal};

// The end of `n` columns of a Relation.
pub fn relation_columns(s: &[u8], c: Cursor, n: u16) -> Cursor
    ensures { result ≡ groups_end column_fields s.now n c }
{
    groups_end::<RelationColumn>(s, c, n as u32)
}

pub fn read_relation(s: &[u8], in_block: bool) -> Result<Message, Refusal>
    ensures { result ≡ read_kind relation in_block s.now }
{
    let mut r = Reader::at(s, 1);
    let xid = framing::block_xid(&mut r, in_block)?;
    let relation = fields::id(&mut r)?;
    let namespace = r.text()?;
    let name = r.text()?;
    let identity = r.letter(b"dnfi")?;
    let count = fields::column_count(&mut r)?;
    let columns = r.next?;
    r.next = relation_columns(s, r.next, count);
    framing::finish(&r)?;
    Ok(Message::Relation(Relation {
        xid,
        relation,
        namespace,
        name,
        identity,
        count,
        columns,
    }))
}

pub fn read_type(s: &[u8], in_block: bool) -> Result<Message, Refusal>
    ensures { result ≡ read_kind type in_block s.now }
{
    let mut r = Reader::at(s, 1);
    let xid = framing::block_xid(&mut r, in_block)?;
    let oid = r.number::<u32>(0, u32::MAX, Refusal::FIELD)?;
    let namespace = r.text()?;
    let name = r.text()?;
    framing::finish(&r)?;
    Ok(Message::Type(Type {
        xid,
        oid,
        namespace,
        name,
    }))
}
