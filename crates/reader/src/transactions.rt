#![tactic(auto, unfolding(message::specs::Messages::read_kind, message::specs::Layout::xid_field, wire::specs::Fields::number_field, wire::specs::Fields::letter_field, wire::specs::Fields::text_field, wire::specs::Fields::bytes_field, wire::specs::Fields::value_field))]
// The messages that begin and end transactions and stream blocks, and the Origin.
ghost use Rattle.std.specs.Prelude.{◌≡◌, false};
ghost use Rattle.message.specs.Kinds.{begin, commit, origin, stream_start, stream_stop, stream_commit, stream_abort};
ghost use Rattle.message.specs.Messages.{read_kind};

use crate::framing;
use message::{Begin, Commit, Message, Origin, StreamCommit, fields};
use wire::{Reader, Refusal};

pub fn read_begin(s: &[u8]) -> Result<Message, Refusal>
    ensures { result ≡ read_kind begin false s.now }
{
    let mut r = Reader::at(s, 1);
    let final_lsn = r.number::<u64>(0, u64::MAX, Refusal::FIELD)?;
    let time = r.number::<u64>(0, u64::MAX, Refusal::FIELD)?;
    let xid = fields::id(&mut r)?;
    framing::finish(&r)?;
    Ok(Message::Begin(Begin {
        final_lsn,
        time: time.cast_signed(),
        xid,
    }))
}

pub fn read_commit(s: &[u8]) -> Result<Message, Refusal>
    ensures { result ≡ read_kind commit false s.now }
{
    let mut r = Reader::at(s, 1);
    let flags = r.number::<u8>(0, 0, Refusal::FIELD)?;
    let commit_lsn = r.number::<u64>(0, u64::MAX, Refusal::FIELD)?;
    let end_lsn = r.number::<u64>(0, u64::MAX, Refusal::FIELD)?;
    let time = r.number::<u64>(0, u64::MAX, Refusal::FIELD)?;
    framing::finish(&r)?;
    Ok(Message::Commit(Commit {
        flags,
        commit_lsn,
        end_lsn,
        time: time.cast_signed(),
    }))
}

pub fn read_origin(s: &[u8]) -> Result<Message, Refusal>
    ensures { result ≡ read_kind origin false s.now }
{
    let mut r = Reader::at(s, 1);
    let lsn = r.number::<u64>(0, u64::MAX, Refusal::FIELD)?;
    let name = r.text()?;
    framing::finish(&r)?;
    Ok(Message::Origin(Origin { lsn, name }))
}

pub fn read_stream_start(s: &[u8]) -> Result<Message, Refusal>
    ensures { result ≡ read_kind stream_start false s.now }
{
    let mut r = Reader::at(s, 1);
    let xid = fields::id(&mut r)?;
    let first = r.number::<u8>(0, 1, Refusal::FIELD)?;
    framing::finish(&r)?;
    Ok(Message::StreamStart { xid, first })
}

pub fn read_stream_stop(s: &[u8]) -> Result<Message, Refusal>
    ensures { result ≡ read_kind stream_stop false s.now }
{
    framing::finish(&Reader::at(s, 1))?;
    Ok(Message::StreamStop)
}

pub fn read_stream_commit(s: &[u8]) -> Result<Message, Refusal>
    ensures { result ≡ read_kind stream_commit false s.now }
{
    let mut r = Reader::at(s, 1);
    let xid = fields::id(&mut r)?;
    let flags = r.number::<u8>(0, 0, Refusal::FIELD)?;
    let commit_lsn = r.number::<u64>(0, u64::MAX, Refusal::FIELD)?;
    let end_lsn = r.number::<u64>(0, u64::MAX, Refusal::FIELD)?;
    let time = r.number::<u64>(0, u64::MAX, Refusal::FIELD)?;
    framing::finish(&r)?;
    Ok(Message::StreamCommit(StreamCommit {
        xid,
        flags,
        commit_lsn,
        end_lsn,
        time: time.cast_signed(),
    }))
}

pub fn read_stream_abort(s: &[u8]) -> Result<Message, Refusal>
    ensures { result ≡ read_kind stream_abort false s.now }
{
    let mut r = Reader::at(s, 1);
    let xid = fields::id(&mut r)?;
    let sub_xid = fields::id(&mut r)?;
    framing::finish(&r)?;
    Ok(Message::StreamAbort { xid, sub_xid })
}
