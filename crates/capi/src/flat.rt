// The flat form of a message: a row of 16 numbers, as C lends it. Each kind has a function of its own, since kinds differ in their fields, and so that
// no message passes through the enum of all kinds (speed).
ghost use Rattle.std.specs.Prelude.{◌≡◌};
ghost use Rattle.message.specs.declared.Message.TheVariants as a;
ghost use Rattle.capi.specs.Flat.{flat};

use message::{
    Begin, Commit, Delete, Insert, Kind, LogicalMessage, Message, OldTuple, Origin, Relation,
    StreamCommit, Truncate, Type, Update,
};

pub fn flatten_begin(out: &mut [u64; 16], m: Begin)
    ensures { out.new ≡ flat (a.Begin m) }
{
    *out = [0; 16];
    out[0] = Kind::Begin.number() as u64;
    out[1] = m.final_lsn;
    out[2] = m.time.cast_unsigned();
    out[3] = m.xid as u64;
}

pub fn flatten_commit(out: &mut [u64; 16], m: Commit)
    ensures { out.new ≡ flat (a.Commit m) }
{
    *out = [0; 16];
    out[0] = Kind::Commit.number() as u64;
    out[1] = m.flags as u64;
    out[2] = m.commit_lsn;
    out[3] = m.end_lsn;
    out[4] = m.time.cast_unsigned();
}

pub fn flatten_origin(out: &mut [u64; 16], m: Origin)
    ensures { out.new ≡ flat (a.Origin m) }
{
    *out = [0; 16];
    out[0] = Kind::Origin.number() as u64;
    out[1] = m.lsn;
    out[2] = m.name.start as u64;
    out[3] = m.name.length as u64;
}

pub fn flatten_relation(out: &mut [u64; 16], m: Relation)
    ensures { out.new ≡ flat (a.Relation m) }
{
    *out = [0; 16];
    out[0] = Kind::Relation.number() as u64;
    out[1] = m.xid as u64;
    out[2] = m.relation as u64;
    out[3] = m.namespace.start as u64;
    out[4] = m.namespace.length as u64;
    out[5] = m.name.start as u64;
    out[6] = m.name.length as u64;
    out[7] = m.identity as u64;
    out[8] = m.count as u64;
    out[9] = m.columns as u64;
}

pub fn flatten_type(out: &mut [u64; 16], m: Type)
    ensures { out.new ≡ flat (a.«Type» m) }
{
    *out = [0; 16];
    out[0] = Kind::Type.number() as u64;
    out[1] = m.xid as u64;
    out[2] = m.oid as u64;
    out[3] = m.namespace.start as u64;
    out[4] = m.namespace.length as u64;
    out[5] = m.name.start as u64;
    out[6] = m.name.length as u64;
}

pub fn flatten_insert(out: &mut [u64; 16], m: Insert)
    ensures { out.new ≡ flat (a.Insert m) }
{
    *out = [0; 16];
    out[0] = Kind::Insert.number() as u64;
    out[1] = m.xid as u64;
    out[2] = m.relation as u64;
    out[3] = m.tuple as u64;
}

pub fn flatten_update(out: &mut [u64; 16], m: Update)
    ensures { out.new ≡ flat (a.Update m) }
{
    let Update {
        xid,
        relation,
        old,
        tuple,
    } = m;
    *out = [0; 16];
    out[0] = Kind::Update.number() as u64;
    out[1] = xid as u64;
    out[2] = relation as u64;
    out[5] = tuple as u64;
    match old {
        OldTuple::Nothing => {}
        OldTuple::Key(start) => {
            out[3] = b'K' as u64;
            out[4] = start as u64;
        }
        OldTuple::Full(start) => {
            out[3] = b'O' as u64;
            out[4] = start as u64;
        }
    }
}

pub fn flatten_delete(out: &mut [u64; 16], m: Delete)
    ensures { out.new ≡ flat (a.Delete m) }
{
    *out = [0; 16];
    out[0] = Kind::Delete.number() as u64;
    out[1] = m.xid as u64;
    out[2] = m.relation as u64;
    out[3] = m.image as u64;
    out[4] = m.tuple as u64;
}

pub fn flatten_truncate(out: &mut [u64; 16], m: Truncate)
    ensures { out.new ≡ flat (a.Truncate m) }
{
    *out = [0; 16];
    out[0] = Kind::Truncate.number() as u64;
    out[1] = m.xid as u64;
    out[2] = m.count as u64;
    out[3] = m.options as u64;
    out[4] = m.relations as u64;
}

pub fn flatten_logical_message(out: &mut [u64; 16], m: LogicalMessage)
    ensures { out.new ≡ flat (a.Message m) }
{
    *out = [0; 16];
    out[0] = Kind::Message.number() as u64;
    out[1] = m.xid as u64;
    out[2] = m.flags as u64;
    out[3] = m.lsn;
    out[4] = m.prefix.start as u64;
    out[5] = m.prefix.length as u64;
    out[6] = m.content.start as u64;
    out[7] = m.content.length as u64;
}

pub fn flatten_stream_start(out: &mut [u64; 16], xid: u32, first: u8)
    ensures { out.new ≡ flat (a.StreamStart xid first) }
{
    *out = [0; 16];
    out[0] = Kind::StreamStart.number() as u64;
    out[1] = xid as u64;
    out[2] = first as u64;
}

pub fn flatten_stream_stop(out: &mut [u64; 16])
    ensures { out.new ≡ flat a.StreamStop }
{
    *out = [0; 16];
    out[0] = Kind::StreamStop.number() as u64;
}

pub fn flatten_stream_commit(out: &mut [u64; 16], m: StreamCommit)
    ensures { out.new ≡ flat (a.StreamCommit m) }
{
    *out = [0; 16];
    out[0] = Kind::StreamCommit.number() as u64;
    out[1] = m.xid as u64;
    out[2] = m.flags as u64;
    out[3] = m.commit_lsn;
    out[4] = m.end_lsn;
    out[5] = m.time.cast_unsigned();
}

pub fn flatten_stream_abort(out: &mut [u64; 16], xid: u32, sub_xid: u32)
    ensures { out.new ≡ flat (a.StreamAbort xid sub_xid) }
{
    *out = [0; 16];
    out[0] = Kind::StreamAbort.number() as u64;
    out[1] = xid as u64;
    out[2] = sub_xid as u64;
}

// Makes `out` the flat form of a message.
pub fn flatten(out: &mut [u64; 16], m: Message)
    ensures { out.new ≡ flat m }
{
    match m {
        Message::Begin(m) => flatten_begin(out, m),
        Message::Commit(m) => flatten_commit(out, m),
        Message::Origin(m) => flatten_origin(out, m),
        Message::Relation(m) => flatten_relation(out, m),
        Message::Type(m) => flatten_type(out, m),
        Message::Insert(m) => flatten_insert(out, m),
        Message::Update(m) => flatten_update(out, m),
        Message::Delete(m) => flatten_delete(out, m),
        Message::Truncate(m) => flatten_truncate(out, m),
        Message::Message(m) => flatten_logical_message(out, m),
        Message::StreamStart { xid, first } => flatten_stream_start(out, xid, first),
        Message::StreamStop => flatten_stream_stop(out),
        Message::StreamCommit(m) => flatten_stream_commit(out, m),
        Message::StreamAbort { xid, sub_xid } => flatten_stream_abort(out, xid, sub_xid),
    }
}
