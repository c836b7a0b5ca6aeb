#![tactic(auto, using(crate::proofs::Stores::lengths))]
// The messages that describe tables and types: Relation and Type.
ghost use Rattle.std.specs.Prelude.{◌≡◌, ◌≤◌, length, Ok};
ghost use Rattle.message.specs.declared.Message.TheVariants as a;
ghost use Rattle.message.specs.Layout.{groups_end};
ghost use Rattle.message.specs.Kinds.{column_fields};
ghost use Rattle.message.specs.Write.{write_message};
ghost use Rattle.message.specs.Pieces.{message_pieces, message_end, bytes_of};
ghost use Rattle.writer.specs.Answer.{Settles};
ghost use Rattle.writer.specs.Store.{Stored};

use crate::judging::{self, Reach};
use crate::laying::Pen;
use message::{Kind, Relation, Type, Version};
use wire::{Cursor, Refusal};

fn store_relation(out: &mut [u8], m: Relation, source: &[u8], in_block: bool, end: Cursor)
    requires { (end ≡ groups_end column_fields source.now m.count (Ok m.columns)) × (length (bytes_of (message_pieces in_block (a.Relation m) source.now)) ≤ length out.old) }
    ensures { Stored (bytes_of (message_pieces in_block (a.Relation m) source.now)) out.old out.new }
{
    let mut pen = Pen { out, at: 0 };
    pen.byte(b'R');
    pen.xid(in_block, m.xid);
    pen.number(m.relation);
    pen.text(source, m.namespace);
    pen.text(source, m.name);
    pen.byte(m.identity);
    pen.number(m.count);
    pen.section(source, m.columns, end);
}

fn judge_relation(
    version: Version,
    in_block: bool,
    m: Relation,
    source: &[u8],
    end: Cursor,
) -> Reach
    ensures { end ≡ groups_end column_fields source.now m.count (Ok m.columns) → result.end ≡ message_end version in_block (a.Relation m) source.now }
{
    Reach::open(version, in_block, Kind::Relation)
        .xid(in_block, m.xid)
        .id(m.relation)
        .text(source, m.namespace)
        .text(source, m.name)
        .letter(b"dnfi", m.identity)
        .number(0, message::MOST_COLUMNS, Refusal::RANGE, m.count)
        .section(m.columns, end)
}

pub fn write_relation(
    version: Version,
    in_block: bool,
    m: Relation,
    source: &[u8],
    out: &mut [u8],
) -> Result<usize, Refusal>
    ensures { Settles (write_message version in_block (a.Relation m) source.now) out.old result out.new }
{
    let end = reader::relation_columns(source, Ok(m.columns), m.count);
    let n = judge_relation(version, in_block, m, source, end).fit(out.len())?;
    store_relation(out, m, source, in_block, end);
    Ok(n)
}

fn store_type(out: &mut [u8], m: Type, source: &[u8], in_block: bool)
    requires { length (bytes_of (message_pieces in_block (a.«Type» m) source.now)) ≤ length out.old }
    ensures { Stored (bytes_of (message_pieces in_block (a.«Type» m) source.now)) out.old out.new }
{
    let mut pen = Pen { out, at: 0 };
    pen.byte(b'Y');
    pen.xid(in_block, m.xid);
    pen.number(m.oid);
    pen.text(source, m.namespace);
    pen.text(source, m.name);
}

fn judge_type(version: Version, in_block: bool, m: Type, source: &[u8]) -> Reach
    ensures { result.end ≡ message_end version in_block (a.«Type» m) source.now }
{
    Reach::open(version, in_block, Kind::Type)
        .xid(in_block, m.xid)
        .number(0, u32::MAX, Refusal::FIELD, m.oid)
        .text(source, m.namespace)
        .text(source, m.name)
}

pub fn write_type(
    version: Version,
    in_block: bool,
    m: Type,
    source: &[u8],
    out: &mut [u8],
) -> Result<usize, Refusal>
    ensures { Settles (write_message version in_block (a.«Type» m) source.now) out.old result out.new }
{
    let n = judge_type(version, in_block, m, source).fit(out.len())?;
    store_type(out, m, source, in_block);
    Ok(n)
}
