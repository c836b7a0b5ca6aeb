// Writing the message whose flat form a row of 16 numbers is: a function for each kind, as in `flat`.
ghost use Rattle.std.specs.Prelude.{ℕ, ◌≡◌, List, Some};
ghost use Rattle.message.specs.Kinds.{begin, commit, origin, relation, type, insert, update, delete, truncate, message, stream_start, stream_stop, stream_commit, stream_abort};
ghost use Rattle.message.specs.Messages.{old_tuple};
ghost use Rattle.wire.specs.Cursors.{refuse};
ghost use Rattle.writer.specs.Answer.{Settles};
ghost use Rattle.capi.specs.Flat.{in_bytes, message_in, same, whole, unflat, write_found};

use crate::flat;
use message::{
    Begin, Commit, Delete, Insert, Kind, LogicalMessage, OldTuple, Origin, Relation, StreamCommit,
    Truncate, Type, Update, Version,
};
use std::convert::TryFrom;
use wire::{Number, Refusal, Span};

// A number that fits, else 0.
#[tactic(auto, unfolding(crate::specs::Flat::in_bytes))]
fn fitting<N: Number>(n: u64) -> N
    ensures { result ≡ N.of (in_bytes N.WIDTH n) }
{
    N::fitting(n)
}

fn span(start: u64, length: u64) -> Span
    ensures { result ≡ record { start = in_bytes 8 start; length = in_bytes 8 length } }
{
    Span {
        start: fitting(start),
        length: fitting(length),
    }
}

fn old_tuple(letter: u64, start: u64) -> OldTuple
    ensures { result ≡ old_tuple (in_bytes 1 letter) (in_bytes 8 start) }
{
    let start: usize = fitting(start);
    match fitting::<u8>(letter) {
        b'K' => OldTuple::Key(start),
        b'O' => OldTuple::Full(start),
        _ => OldTuple::Nothing,
    }
}

// Every number is looked at, so that those that must be 0 are tested together.
fn same_row(a: &[u64; 16], b: &[u64; 16]) -> bool
    ensures { result ≡ same 16 a.now b.now }
{
    let mut same = true;
    for k in (0..16).rev() {
        if a[k] != b[k] {
            same = false;
        }
    }
    same
}

fn refused(number: u8) -> Result<usize, Refusal>
    ensures { result ≡ refuse number 0 }
{
    Err(Refusal { number, offset: 0 })
}

// THE KINDS. Where a number is too big for its field, it is 0 in the message, whose flat form is not the row.

fn write_begin(
    version: Version,
    in_block: bool,
    row: &[u64; 16],
    out: &mut [u8],
) -> Result<usize, Refusal>
    ensures { (src : List ℕ) → Settles (write_found version in_block (whole row.now (message_in row.now (Some begin))) src) out.old result out.new }
{
    let m = Begin {
        final_lsn: fitting(row[1]),
        time: fitting::<u64>(row[2]).cast_signed(),
        xid: fitting(row[3]),
    };
    let mut again = [0; 16];
    flat::flatten_begin(&mut again, m);
    if same_row(&again, row) {
        writer::write_begin(version, in_block, m, out)
    } else {
        refused(Refusal::FIELD)
    }
}

fn write_commit(
    version: Version,
    in_block: bool,
    row: &[u64; 16],
    out: &mut [u8],
) -> Result<usize, Refusal>
    ensures { (src : List ℕ) → Settles (write_found version in_block (whole row.now (message_in row.now (Some commit))) src) out.old result out.new }
{
    let m = Commit {
        flags: fitting(row[1]),
        commit_lsn: fitting(row[2]),
        end_lsn: fitting(row[3]),
        time: fitting::<u64>(row[4]).cast_signed(),
    };
    let mut again = [0; 16];
    flat::flatten_commit(&mut again, m);
    if same_row(&again, row) {
        writer::write_commit(version, in_block, m, out)
    } else {
        refused(Refusal::FIELD)
    }
}

fn write_origin(
    version: Version,
    in_block: bool,
    row: &[u64; 16],
    source: &[u8],
    out: &mut [u8],
) -> Result<usize, Refusal>
    ensures { Settles (write_found version in_block (whole row.now (message_in row.now (Some origin))) source.now) out.old result out.new }
{
    let m = Origin {
        lsn: fitting(row[1]),
        name: span(row[2], row[3]),
    };
    let mut again = [0; 16];
    flat::flatten_origin(&mut again, m);
    if same_row(&again, row) {
        writer::write_origin(version, in_block, m, source, out)
    } else {
        refused(Refusal::FIELD)
    }
}

fn write_relation(
    version: Version,
    in_block: bool,
    row: &[u64; 16],
    source: &[u8],
    out: &mut [u8],
) -> Result<usize, Refusal>
    ensures { Settles (write_found version in_block (whole row.now (message_in row.now (Some relation))) source.now) out.old result out.new }
{
    let m = Relation {
        xid: fitting(row[1]),
        relation: fitting(row[2]),
        namespace: span(row[3], row[4]),
        name: span(row[5], row[6]),
        identity: fitting(row[7]),
        count: fitting(row[8]),
        columns: fitting(row[9]),
    };
    let mut again = [0; 16];
    flat::flatten_relation(&mut again, m);
    if same_row(&again, row) {
        writer::write_relation(version, in_block, m, source, out)
    } else {
        refused(Refusal::FIELD)
    }
}

fn write_type(
    version: Version,
    in_block: bool,
    row: &[u64; 16],
    source: &[u8],
    out: &mut [u8],
) -> Result<usize, Refusal>
    ensures { Settles (write_found version in_block (whole row.now (message_in row.now (Some type))) source.now) out.old result out.new }
{
    let m = Type {
        xid: fitting(row[1]),
        oid: fitting(row[2]),
        namespace: span(row[3], row[4]),
        name: span(row[5], row[6]),
    };
    let mut again = [0; 16];
    flat::flatten_type(&mut again, m);
    if same_row(&again, row) {
        writer::write_type(version, in_block, m, source, out)
    } else {
        refused(Refusal::FIELD)
    }
}

fn write_insert(
    version: Version,
    in_block: bool,
    row: &[u64; 16],
    source: &[u8],
    out: &mut [u8],
) -> Result<usize, Refusal>
    ensures { Settles (write_found version in_block (whole row.now (message_in row.now (Some insert))) source.now) out.old result out.new }
{
    let m = Insert {
        xid: fitting(row[1]),
        relation: fitting(row[2]),
        tuple: fitting(row[3]),
    };
    let mut again = [0; 16];
    flat::flatten_insert(&mut again, m);
    if same_row(&again, row) {
        writer::write_insert(version, in_block, m, source, out)
    } else {
        refused(Refusal::FIELD)
    }
}

fn write_update(
    version: Version,
    in_block: bool,
    row: &[u64; 16],
    source: &[u8],
    out: &mut [u8],
) -> Result<usize, Refusal>
    ensures { Settles (write_found version in_block (whole row.now (message_in row.now (Some update))) source.now) out.old result out.new }
{
    let m = Update {
        xid: fitting(row[1]),
        relation: fitting(row[2]),
        old: old_tuple(row[3], row[4]),
        tuple: fitting(row[5]),
    };
    let mut again = [0; 16];
    flat::flatten_update(&mut again, m);
    if same_row(&again, row) {
        writer::write_update(version, in_block, m, source, out)
    } else {
        refused(Refusal::FIELD)
    }
}

fn write_delete(
    version: Version,
    in_block: bool,
    row: &[u64; 16],
    source: &[u8],
    out: &mut [u8],
) -> Result<usize, Refusal>
    ensures { Settles (write_found version in_block (whole row.now (message_in row.now (Some delete))) source.now) out.old result out.new }
{
    let m = Delete {
        xid: fitting(row[1]),
        relation: fitting(row[2]),
        image: fitting(row[3]),
        tuple: fitting(row[4]),
    };
    let mut again = [0; 16];
    flat::flatten_delete(&mut again, m);
    if same_row(&again, row) {
        writer::write_delete(version, in_block, m, source, out)
    } else {
        refused(Refusal::FIELD)
    }
}

fn write_truncate(
    version: Version,
    in_block: bool,
    row: &[u64; 16],
    source: &[u8],
    out: &mut [u8],
) -> Result<usize, Refusal>
    ensures { Settles (write_found version in_block (whole row.now (message_in row.now (Some truncate))) source.now) out.old result out.new }
{
    let m = Truncate {
        xid: fitting(row[1]),
        count: fitting(row[2]),
        options: fitting(row[3]),
        relations: fitting(row[4]),
    };
    let mut again = [0; 16];
    flat::flatten_truncate(&mut again, m);
    if same_row(&again, row) {
        writer::write_truncate(version, in_block, m, source, out)
    } else {
        refused(Refusal::FIELD)
    }
}

fn write_logical_message(
    version: Version,
    in_block: bool,
    row: &[u64; 16],
    source: &[u8],
    out: &mut [u8],
) -> Result<usize, Refusal>
    ensures { Settles (write_found version in_block (whole row.now (message_in row.now (Some message))) source.now) out.old result out.new }
{
    let m = LogicalMessage {
        xid: fitting(row[1]),
        flags: fitting(row[2]),
        lsn: fitting(row[3]),
        prefix: span(row[4], row[5]),
        content: span(row[6], row[7]),
    };
    let mut again = [0; 16];
    flat::flatten_logical_message(&mut again, m);
    if same_row(&again, row) {
        writer::write_logical_message(version, in_block, m, source, out)
    } else {
        refused(Refusal::FIELD)
    }
}

fn write_stream_start(
    version: Version,
    in_block: bool,
    row: &[u64; 16],
    out: &mut [u8],
) -> Result<usize, Refusal>
    ensures { (src : List ℕ) → Settles (write_found version in_block (whole row.now (message_in row.now (Some stream_start))) src) out.old result out.new }
{
    let xid: u32 = fitting(row[1]);
    let first: u8 = fitting(row[2]);
    let mut again = [0; 16];
    flat::flatten_stream_start(&mut again, xid, first);
    if same_row(&again, row) {
        writer::write_stream_start(version, in_block, xid, first, out)
    } else {
        refused(Refusal::FIELD)
    }
}

fn write_stream_stop(
    version: Version,
    in_block: bool,
    row: &[u64; 16],
    out: &mut [u8],
) -> Result<usize, Refusal>
    ensures { (src : List ℕ) → Settles (write_found version in_block (whole row.now (message_in row.now (Some stream_stop))) src) out.old result out.new }
{
    let mut again = [0; 16];
    flat::flatten_stream_stop(&mut again);
    if same_row(&again, row) {
        writer::write_stream_stop(version, in_block, out)
    } else {
        refused(Refusal::FIELD)
    }
}

fn write_stream_commit(
    version: Version,
    in_block: bool,
    row: &[u64; 16],
    out: &mut [u8],
) -> Result<usize, Refusal>
    ensures { (src : List ℕ) → Settles (write_found version in_block (whole row.now (message_in row.now (Some stream_commit))) src) out.old result out.new }
{
    let m = StreamCommit {
        xid: fitting(row[1]),
        flags: fitting(row[2]),
        commit_lsn: fitting(row[3]),
        end_lsn: fitting(row[4]),
        time: fitting::<u64>(row[5]).cast_signed(),
    };
    let mut again = [0; 16];
    flat::flatten_stream_commit(&mut again, m);
    if same_row(&again, row) {
        writer::write_stream_commit(version, in_block, m, out)
    } else {
        refused(Refusal::FIELD)
    }
}

fn write_stream_abort(
    version: Version,
    in_block: bool,
    row: &[u64; 16],
    out: &mut [u8],
) -> Result<usize, Refusal>
    ensures { (src : List ℕ) → Settles (write_found version in_block (whole row.now (message_in row.now (Some stream_abort))) src) out.old result out.new }
{
    let xid: u32 = fitting(row[1]);
    let sub_xid: u32 = fitting(row[2]);
    let mut again = [0; 16];
    flat::flatten_stream_abort(&mut again, xid, sub_xid);
    if same_row(&again, row) {
        writer::write_stream_abort(version, in_block, xid, sub_xid, out)
    } else {
        refused(Refusal::FIELD)
    }
}

// Writes the message of a row.
pub fn write_row(
    version: Version,
    in_block: bool,
    row: &[u64; 16],
    source: &[u8],
    out: &mut [u8],
) -> Result<usize, Refusal>
    ensures { Settles (write_found version in_block (unflat row.now) source.now) out.old result out.new }
{
    let Ok(kind) = Kind::try_from(fitting::<u8>(row[0])) else {
        return refused(Refusal::FIELD);
    };
    match kind {
        Kind::Begin => write_begin(version, in_block, row, out),
        Kind::Commit => write_commit(version, in_block, row, out),
        Kind::Origin => write_origin(version, in_block, row, source, out),
        Kind::Relation => write_relation(version, in_block, row, source, out),
        Kind::Type => write_type(version, in_block, row, source, out),
        Kind::Insert => write_insert(version, in_block, row, source, out),
        Kind::Update => write_update(version, in_block, row, source, out),
        Kind::Delete => write_delete(version, in_block, row, source, out),
        Kind::Truncate => write_truncate(version, in_block, row, source, out),
        Kind::Message => write_logical_message(version, in_block, row, source, out),
        Kind::StreamStart => write_stream_start(version, in_block, row, out),
        Kind::StreamStop => write_stream_stop(version, in_block, row, out),
        Kind::StreamCommit => write_stream_commit(version, in_block, row, out),
        Kind::StreamAbort => write_stream_abort(version, in_block, row, out),
    }
}
