#![tactic(auto, using(crate::proofs::Stores::lengths))]
// The messages that begin and end transactions and stream blocks, and the Origin.
ghost use Rattle.std.specs.Prelude.{◌≡◌, false, List, [], ℕ, ◌≤◌, length};
ghost use Rattle.message.specs.declared.Message.TheVariants as a;
ghost use Rattle.message.specs.Write.{write_message};
ghost use Rattle.message.specs.Pieces.{message_pieces, message_end, bytes_of};
ghost use Rattle.writer.specs.Answer.{Settles};
ghost use Rattle.writer.specs.Store.{Stored};

use crate::judging::Reach;
use crate::laying::Pen;
use message::{Begin, Commit, Kind, Origin, StreamCommit, Version};
use wire::Refusal;

fn store_begin(out: &mut [u8], m: Begin)
    requires { length (bytes_of (message_pieces false (a.Begin m) [])) ≤ length out.old }
    ensures { Stored (bytes_of (message_pieces false (a.Begin m) [])) out.old out.new }
{
    let mut pen = Pen { out, at: 0 };
    pen.byte(b'B');
    pen.number(m.final_lsn);
    pen.number(m.time.cast_unsigned());
    pen.number(m.xid);
}

fn judge_begin(version: Version, in_block: bool, m: Begin) -> Reach
    ensures { (src : List ℕ) → result.end ≡ message_end version in_block (a.Begin m) src }
{
    Reach::open(version, in_block, Kind::Begin)
        .long(m.final_lsn)
        .long(m.time.cast_unsigned())
        .id(m.xid)
}

pub fn write_begin(
    version: Version,
    in_block: bool,
    m: Begin,
    out: &mut [u8],
) -> Result<usize, Refusal>
    ensures { (src : List ℕ) → Settles (write_message version in_block (a.Begin m) src) out.old result out.new }
{
    let n = judge_begin(version, in_block, m).fit(out.len())?;
    store_begin(out, m);
    Ok(n)
}

fn store_commit(out: &mut [u8], m: Commit)
    requires { length (bytes_of (message_pieces false (a.Commit m) [])) ≤ length out.old }
    ensures { Stored (bytes_of (message_pieces false (a.Commit m) [])) out.old out.new }
{
    let mut pen = Pen { out, at: 0 };
    pen.byte(b'C');
    pen.number(m.flags);
    pen.number(m.commit_lsn);
    pen.number(m.end_lsn);
    pen.number(m.time.cast_unsigned());
}

fn judge_commit(version: Version, in_block: bool, m: Commit) -> Reach
    ensures { (src : List ℕ) → result.end ≡ message_end version in_block (a.Commit m) src }
{
    Reach::open(version, in_block, Kind::Commit)
        .byte(0, m.flags)
        .long(m.commit_lsn)
        .long(m.end_lsn)
        .long(m.time.cast_unsigned())
}

pub fn write_commit(
    version: Version,
    in_block: bool,
    m: Commit,
    out: &mut [u8],
) -> Result<usize, Refusal>
    ensures { (src : List ℕ) → Settles (write_message version in_block (a.Commit m) src) out.old result out.new }
{
    let n = judge_commit(version, in_block, m).fit(out.len())?;
    store_commit(out, m);
    Ok(n)
}

fn store_origin(out: &mut [u8], m: Origin, source: &[u8])
    requires { length (bytes_of (message_pieces false (a.Origin m) source.now)) ≤ length out.old }
    ensures { Stored (bytes_of (message_pieces false (a.Origin m) source.now)) out.old out.new }
{
    let mut pen = Pen { out, at: 0 };
    pen.byte(b'O');
    pen.number(m.lsn);
    pen.text(source, m.name);
}

fn judge_origin(version: Version, in_block: bool, m: Origin, source: &[u8]) -> Reach
    ensures { result.end ≡ message_end version in_block (a.Origin m) source.now }
{
    Reach::open(version, in_block, Kind::Origin)
        .long(m.lsn)
        .text(source, m.name)
}

pub fn write_origin(
    version: Version,
    in_block: bool,
    m: Origin,
    source: &[u8],
    out: &mut [u8],
) -> Result<usize, Refusal>
    ensures { Settles (write_message version in_block (a.Origin m) source.now) out.old result out.new }
{
    let n = judge_origin(version, in_block, m, source).fit(out.len())?;
    store_origin(out, m, source);
    Ok(n)
}

fn store_stream_start(out: &mut [u8], xid: u32, first: u8)
    requires { length (bytes_of (message_pieces false (a.StreamStart xid first) [])) ≤ length out.old }
    ensures { Stored (bytes_of (message_pieces false (a.StreamStart xid first) [])) out.old out.new }
{
    let mut pen = Pen { out, at: 0 };
    pen.byte(b'S');
    pen.number(xid);
    pen.number(first);
}

fn judge_stream_start(version: Version, in_block: bool, xid: u32, first: u8) -> Reach
    ensures { (src : List ℕ) → result.end ≡ message_end version in_block (a.StreamStart xid first) src }
{
    Reach::open(version, in_block, Kind::StreamStart)
        .id(xid)
        .byte(1, first)
}

pub fn write_stream_start(
    version: Version,
    in_block: bool,
    xid: u32,
    first: u8,
    out: &mut [u8],
) -> Result<usize, Refusal>
    ensures { (src : List ℕ) → Settles (write_message version in_block (a.StreamStart xid first) src) out.old result out.new }
{
    let n = judge_stream_start(version, in_block, xid, first).fit(out.len())?;
    store_stream_start(out, xid, first);
    Ok(n)
}

pub fn write_stream_stop(version: Version, in_block: bool, out: &mut [u8]) -> Result<usize, Refusal>
    ensures { (src : List ℕ) → Settles (write_message version in_block a.StreamStop src) out.old result out.new }
{
    Reach::open(version, in_block, Kind::StreamStop).fit(out.len())?;
    let mut pen = Pen { out, at: 0 };
    pen.byte(b'E');
    Ok(pen.at)
}

fn store_stream_commit(out: &mut [u8], m: StreamCommit)
    requires { length (bytes_of (message_pieces false (a.StreamCommit m) [])) ≤ length out.old }
    ensures { Stored (bytes_of (message_pieces false (a.StreamCommit m) [])) out.old out.new }
{
    let mut pen = Pen { out, at: 0 };
    pen.byte(b'c');
    pen.number(m.xid);
    pen.number(m.flags);
    pen.number(m.commit_lsn);
    pen.number(m.end_lsn);
    pen.number(m.time.cast_unsigned());
}

fn judge_stream_commit(version: Version, in_block: bool, m: StreamCommit) -> Reach
    ensures { (src : List ℕ) → result.end ≡ message_end version in_block (a.StreamCommit m) src }
{
    Reach::open(version, in_block, Kind::StreamCommit)
        .id(m.xid)
        .byte(0, m.flags)
        .long(m.commit_lsn)
        .long(m.end_lsn)
        .long(m.time.cast_unsigned())
}

pub fn write_stream_commit(
    version: Version,
    in_block: bool,
    m: StreamCommit,
    out: &mut [u8],
) -> Result<usize, Refusal>
    ensures { (src : List ℕ) → Settles (write_message version in_block (a.StreamCommit m) src) out.old result out.new }
{
    let n = judge_stream_commit(version, in_block, m).fit(out.len())?;
    store_stream_commit(out, m);
    Ok(n)
}

fn store_stream_abort(out: &mut [u8], xid: u32, sub_xid: u32)
    requires { length (bytes_of (message_pieces false (a.StreamAbort xid sub_xid) [])) ≤ length out.old }
    ensures { Stored (bytes_of (message_pieces false (a.StreamAbort xid sub_xid) [])) out.old out.new }
{
    let mut pen = Pen { out, at: 0 };
    pen.byte(b'A');
    pen.number(xid);
    pen.number(sub_xid);
}

fn judge_stream_abort(version: Version, in_block: bool, xid: u32, sub_xid: u32) -> Reach
    ensures { (src : List ℕ) → result.end ≡ message_end version in_block (a.StreamAbort xid sub_xid) src }
{
    Reach::open(version, in_block, Kind::StreamAbort)
        .id(xid)
        .id(sub_xid)
}

pub fn write_stream_abort(
    version: Version,
    in_block: bool,
    xid: u32,
    sub_xid: u32,
    out: &mut [u8],
) -> Result<usize, Refusal>
    ensures { (src : List ℕ) → Settles (write_message version in_block (a.StreamAbort xid sub_xid) src) out.old result out.new }
{
    let n = judge_stream_abort(version, in_block, xid, sub_xid).fit(out.len())?;
    store_stream_abort(out, xid, sub_xid);
    Ok(n)
}
