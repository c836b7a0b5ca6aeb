#![tactic(auto, using(crate::proofs::Stores::lengths))]
// The messages that a transaction's work makes: Insert, Update, Delete, Truncate and the logical message. An Insert, Update and Delete ask
// version and kind before a tuple's end is looked up, so their `judge_KIND` goes on from there.
ghost use Rattle.std.specs.Prelude.{◌≡◌, List, [], ℕ, ◌∷◌, ◌≤◌, length, Ok, Some};
ghost use Rattle.message.specs.declared.Message.TheVariants as a;
ghost use Rattle.message.specs.Kinds.{insert, update, delete};
ghost use Rattle.message.specs.Layout.{id, tuple_end, groups_end};
ghost use Rattle.message.specs.Pieces.{message_pieces, message_end, bytes_of, opened};
ghost use Rattle.message.specs.Write.{write_message};
ghost use Rattle.writer.specs.Answer.{Settles};
ghost use Rattle.writer.specs.Store.{Stored, old_end};

use crate::judging::{self, Reach};
use crate::laying::Pen;
use message::{Delete, Insert, Kind, LogicalMessage, Truncate, Update, Version};
use wire::{Cursor, Refusal};

fn store_insert(out: &mut [u8], m: Insert, source: &[u8], in_block: bool, end: Cursor)
    requires { (end ≡ tuple_end source.now (Ok m.tuple)) × (length (bytes_of (message_pieces in_block (a.Insert m) source.now)) ≤ length out.old) }
    ensures { Stored (bytes_of (message_pieces in_block (a.Insert m) source.now)) out.old out.new }
{
    let mut pen = Pen { out, at: 0 };
    pen.byte(b'I');
    pen.xid(in_block, m.xid);
    pen.number(m.relation);
    pen.byte(b'N');
    pen.section(source, m.tuple, end);
}

fn judge_insert(reach: Reach, in_block: bool, m: Insert, end: Cursor) -> Reach
    ensures { (version : Version) (src : List ℕ) → reach.end ≡ opened version in_block (Some insert) → end ≡ tuple_end src (Ok m.tuple) → result.end ≡ message_end version in_block (a.Insert m) src }
{
    reach
        .xid(in_block, m.xid)
        .id(m.relation)
        .bytes(1)
        .section(m.tuple, end)
}

pub fn write_insert(
    version: Version,
    in_block: bool,
    m: Insert,
    source: &[u8],
    out: &mut [u8],
) -> Result<usize, Refusal>
    ensures { Settles (write_message version in_block (a.Insert m) source.now) out.old result out.new }
{
    let reach = Reach::open(version, in_block, Kind::Insert);
    let end = judging::tuple_end(source, m.tuple);
    let n = judge_insert(reach, in_block, m, end).fit(out.len())?;
    store_insert(out, m, source, in_block, end);
    Ok(n)
}

fn store_update(
    out: &mut [u8],
    m: Update,
    source: &[u8],
    in_block: bool,
    middle: Cursor,
    end: Cursor,
)
    requires { (middle ≡ old_end source.now m.old) × (end ≡ tuple_end source.now (Ok m.tuple)) × (length (bytes_of (message_pieces in_block (a.Update m) source.now)) ≤ length out.old) }
    ensures { Stored (bytes_of (message_pieces in_block (a.Update m) source.now)) out.old out.new }
{
    let mut pen = Pen { out, at: 0 };
    pen.byte(b'U');
    pen.xid(in_block, m.xid);
    pen.number(m.relation);
    pen.old(source, m.old, middle);
    pen.byte(b'N');
    pen.section(source, m.tuple, end);
}

fn judge_update(reach: Reach, in_block: bool, m: Update, middle: Cursor, end: Cursor) -> Reach
    ensures { (version : Version) (src : List ℕ) → reach.end ≡ opened version in_block (Some update) → middle ≡ old_end src m.old → end ≡ tuple_end src (Ok m.tuple) → result.end ≡ message_end version in_block (a.Update m) src }
{
    reach
        .xid(in_block, m.xid)
        .id(m.relation)
        .old(m.old, middle)
        .bytes(1)
        .section(m.tuple, end)
}

pub fn write_update(
    version: Version,
    in_block: bool,
    m: Update,
    source: &[u8],
    out: &mut [u8],
) -> Result<usize, Refusal>
    ensures { Settles (write_message version in_block (a.Update m) source.now) out.old result out.new }
{
    let reach = Reach::open(version, in_block, Kind::Update);
    let middle = judging::old_end(source, m.old);
    let end = judging::tuple_end(source, m.tuple);
    let n = judge_update(reach, in_block, m, middle, end).fit(out.len())?;
    store_update(out, m, source, in_block, middle, end);
    Ok(n)
}

fn store_delete(out: &mut [u8], m: Delete, source: &[u8], in_block: bool, end: Cursor)
    requires { (end ≡ tuple_end source.now (Ok m.tuple)) × (length (bytes_of (message_pieces in_block (a.Delete m) source.now)) ≤ length out.old) }
    ensures { Stored (bytes_of (message_pieces in_block (a.Delete m) source.now)) out.old out.new }
{
    let mut pen = Pen { out, at: 0 };
    pen.byte(b'D');
    pen.xid(in_block, m.xid);
    pen.number(m.relation);
    pen.byte(m.image);
    pen.section(source, m.tuple, end);
}

fn judge_delete(reach: Reach, in_block: bool, m: Delete, end: Cursor) -> Reach
    ensures { (version : Version) (src : List ℕ) → reach.end ≡ opened version in_block (Some delete) → end ≡ tuple_end src (Ok m.tuple) → result.end ≡ message_end version in_block (a.Delete m) src }
{
    reach
        .xid(in_block, m.xid)
        .id(m.relation)
        .letter(b"KO", m.image)
        .section(m.tuple, end)
}

pub fn write_delete(
    version: Version,
    in_block: bool,
    m: Delete,
    source: &[u8],
    out: &mut [u8],
) -> Result<usize, Refusal>
    ensures { Settles (write_message version in_block (a.Delete m) source.now) out.old result out.new }
{
    let reach = Reach::open(version, in_block, Kind::Delete);
    let end = judging::tuple_end(source, m.tuple);
    let n = judge_delete(reach, in_block, m, end).fit(out.len())?;
    store_delete(out, m, source, in_block, end);
    Ok(n)
}

fn store_truncate(out: &mut [u8], m: Truncate, source: &[u8], in_block: bool, end: Cursor)
    requires { (end ≡ groups_end (id ∷ []) source.now m.count (Ok m.relations)) × (length (bytes_of (message_pieces in_block (a.Truncate m) source.now)) ≤ length out.old) }
    ensures { Stored (bytes_of (message_pieces in_block (a.Truncate m) source.now)) out.old out.new }
{
    let mut pen = Pen { out, at: 0 };
    pen.byte(b'T');
    pen.xid(in_block, m.xid);
    pen.number(m.count);
    pen.number(m.options);
    pen.section(source, m.relations, end);
}

fn judge_truncate(version: Version, in_block: bool, m: Truncate, end: Cursor) -> Reach
    ensures { (src : List ℕ) → end ≡ groups_end (id ∷ []) src m.count (Ok m.relations) → result.end ≡ message_end version in_block (a.Truncate m) src }
{
    Reach::open(version, in_block, Kind::Truncate)
        .xid(in_block, m.xid)
        .number(1, message::MOST_RELATIONS, Refusal::RANGE, m.count)
        .byte(3, m.options)
        .section(m.relations, end)
}

pub fn write_truncate(
    version: Version,
    in_block: bool,
    m: Truncate,
    source: &[u8],
    out: &mut [u8],
) -> Result<usize, Refusal>
    ensures { Settles (write_message version in_block (a.Truncate m) source.now) out.old result out.new }
{
    let end = reader::relation_oids(source, Ok(m.relations), m.count);
    let n = judge_truncate(version, in_block, m, end).fit(out.len())?;
    store_truncate(out, m, source, in_block, end);
    Ok(n)
}

fn store_logical_message(out: &mut [u8], m: LogicalMessage, source: &[u8], in_block: bool)
    requires { length (bytes_of (message_pieces in_block (a.Message m) source.now)) ≤ length out.old }
    ensures { Stored (bytes_of (message_pieces in_block (a.Message m) source.now)) out.old out.new }
{
    let mut pen = Pen { out, at: 0 };
    pen.byte(b'M');
    pen.xid(in_block, m.xid);
    pen.number(m.flags);
    pen.number(m.lsn);
    pen.text(source, m.prefix);
    pen.digits(4, m.content.length as u64);
    pen.part(source, m.content.start, m.content.length);
}

fn judge_logical_message(
    version: Version,
    in_block: bool,
    m: LogicalMessage,
    source: &[u8],
) -> Reach
    ensures { result.end ≡ message_end version in_block (a.Message m) source.now }
{
    Reach::open(version, in_block, Kind::Message)
        .xid(in_block, m.xid)
        .byte(1, m.flags)
        .long(m.lsn)
        .text(source, m.prefix)
        .bytes(4)
        .content(source, m.content)
}

pub fn write_logical_message(
    version: Version,
    in_block: bool,
    m: LogicalMessage,
    source: &[u8],
    out: &mut [u8],
) -> Result<usize, Refusal>
    ensures { Settles (write_message version in_block (a.Message m) source.now) out.old result out.new }
{
    let n = judge_logical_message(version, in_block, m, source).fit(out.len())?;
    store_logical_message(out, m, source, in_block);
    Ok(n)
}
