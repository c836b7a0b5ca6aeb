#![tactic(auto, using(crate::proofs::Stops::tuple_stays, crate::proofs::Stops::groups_stay), unfolding(crate::specs::Old::old_field, message::specs::Layout::optional, message::specs::Messages::read_kind, message::specs::Layout::xid_field, wire::specs::Fields::number_field, wire::specs::Fields::letter_field, wire::specs::Fields::text_field, wire::specs::Fields::bytes_field, wire::specs::Fields::value_field))]
// The messages that a transaction's work makes: Insert, Update, Delete, Truncate and the logical message.
ghost use Rattle.std.specs.Prelude.{◌≡◌, [], ◌∷◌};
ghost use Rattle.message.specs.Layout.{id, groups_end};
ghost use Rattle.message.specs.Kinds.{insert, update, delete, truncate, message};
ghost use Rattle.message.specs.Messages.{read_kind};

use crate::passing::{RelationOid, groups_end};
use crate::{framing, tuples};
use message::{Delete, Insert, LogicalMessage, Message, Truncate, Update, fields};
use wire::{Cursor, Reader, Refusal};

// The end of `n` OIDs of a Truncate.
pub fn relation_oids(s: &[u8], c: Cursor, n: u32) -> Cursor
    ensures { result ≡ groups_end (id ∷ []) s.now n c }
{
    groups_end::<RelationOid>(s, c, n)
}

pub fn read_insert(s: &[u8], in_block: bool) -> Result<Message, Refusal>
    ensures { result ≡ read_kind insert in_block s.now }
{
    let mut r = Reader::at(s, 1);
    let xid = framing::block_xid(&mut r, in_block)?;
    let relation = fields::id(&mut r)?;
    r.letter(b"N")?;
    let tuple = tuples::tuple(&mut r)?;
    framing::finish(&r)?;
    Ok(Message::Insert(Insert {
        xid,
        relation,
        tuple,
    }))
}

pub fn read_update(s: &[u8], in_block: bool) -> Result<Message, Refusal>
    ensures { result ≡ read_kind update in_block s.now }
{
    let mut r = Reader::at(s, 1);
    let xid = framing::block_xid(&mut r, in_block)?;
    let relation = fields::id(&mut r)?;
    let old = tuples::old_tuple(&mut r)?;
    r.letter(b"N")?;
    let tuple = tuples::tuple(&mut r)?;
    framing::finish(&r)?;
    Ok(Message::Update(Update {
        xid,
        relation,
        old,
        tuple,
    }))
}

pub fn read_delete(s: &[u8], in_block: bool) -> Result<Message, Refusal>
    ensures { result ≡ read_kind delete in_block s.now }
{
    let mut r = Reader::at(s, 1);
    let xid = framing::block_xid(&mut r, in_block)?;
    let relation = fields::id(&mut r)?;
    let image = r.letter(b"KO")?;
    let tuple = tuples::tuple(&mut r)?;
    framing::finish(&r)?;
    Ok(Message::Delete(Delete {
        xid,
        relation,
        image,
        tuple,
    }))
}

pub fn read_truncate(s: &[u8], in_block: bool) -> Result<Message, Refusal>
    ensures { result ≡ read_kind truncate in_block s.now }
{
    let mut r = Reader::at(s, 1);
    let xid = framing::block_xid(&mut r, in_block)?;
    let count = r.number::<u32>(1, message::MOST_RELATIONS, Refusal::RANGE)?;
    let options = r.number::<u8>(0, 3, Refusal::FIELD)?;
    let relations = r.next?;
    r.next = relation_oids(s, r.next, count);
    framing::finish(&r)?;
    Ok(Message::Truncate(Truncate {
        xid,
        count,
        options,
        relations,
    }))
}

pub fn read_logical_message(s: &[u8], in_block: bool) -> Result<Message, Refusal>
    ensures { result ≡ read_kind message in_block s.now }
{
    let mut r = Reader::at(s, 1);
    let xid = framing::block_xid(&mut r, in_block)?;
    let flags = r.number::<u8>(0, 1, Refusal::FIELD)?;
    let lsn = r.number::<u64>(0, u64::MAX, Refusal::FIELD)?;
    let prefix = r.text()?;
    let content = r.value()?;
    framing::finish(&r)?;
    Ok(Message::Message(LogicalMessage {
        xid,
        flags,
        lsn,
        prefix,
        content,
    }))
}
