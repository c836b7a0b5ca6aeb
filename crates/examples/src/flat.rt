// A message as the list of its numbers, in the form that the second reader gives.
ghost use Rattle.std.specs.Prelude.{◌≡◌, length};
ghost use Rattle.examples.specs.Answers.{number_of, offset_of, told_offset};

use crate::answers::Answer;
use crate::text;
use message::{
    Begin, Commit, Delete, Insert, LogicalMessage, Message, OldTuple, Origin, Relation,
    StreamCommit, Truncate, Type, Update,
};
use second_reader::{Seen, Values};
use wire::{Refusal, Span};

#[derive(Clone, Copy)]
struct List(Values);

impl List {
    fn new(letter: u8) -> Self {
        List(Values::new()).number(letter)
    }

    fn number(mut self, value: impl Into<u64>) -> Self {
        self.0.push(value.into());
        self
    }

    fn offset(self, value: usize) -> Self {
        self.number(value as u64)
    }

    fn time(self, value: i64) -> Self {
        self.number(value.cast_unsigned())
    }

    fn span(self, value: Span) -> Self {
        self.offset(value.start).offset(value.length)
    }

    // A tuple's start and its count.
    fn tuple(self, bytes: &[u8], start: usize) -> Self {
        let count = match text::back(bytes, start) {
            [high, low, ..] => u16::from_be_bytes([*high, *low]),
            _ => 0,
        };
        self.offset(start).number(count)
    }

    fn old_tuple(self, bytes: &[u8], old: OldTuple) -> Self {
        match old {
            OldTuple::Nothing => self.offset(0).offset(0).offset(0),
            OldTuple::Key(start) => self.number(b'K').tuple(bytes, start),
            OldTuple::Full(start) => self.number(b'O').tuple(bytes, start),
        }
    }
}

fn begin(m: Begin) -> List {
    List::new(b'B')
        .number(m.final_lsn)
        .time(m.time)
        .number(m.xid)
}

fn commit(m: Commit) -> List {
    List::new(b'C')
        .number(m.flags)
        .number(m.commit_lsn)
        .number(m.end_lsn)
        .time(m.time)
}

fn origin(m: Origin) -> List {
    List::new(b'O').number(m.lsn).span(m.name)
}

fn relation(m: Relation) -> List {
    let names = List::new(b'R')
        .number(m.xid)
        .number(m.relation)
        .span(m.namespace)
        .span(m.name);
    names.number(m.identity).number(m.count).offset(m.columns)
}

fn named_type(m: Type) -> List {
    List::new(b'Y')
        .number(m.xid)
        .number(m.oid)
        .span(m.namespace)
        .span(m.name)
}

fn insert(m: Insert, bytes: &[u8]) -> List {
    List::new(b'I')
        .number(m.xid)
        .number(m.relation)
        .tuple(bytes, m.tuple)
}

fn update(m: Update, bytes: &[u8]) -> List {
    let Update {
        xid,
        relation,
        old,
        tuple,
    } = m;
    List::new(b'U')
        .number(xid)
        .number(relation)
        .old_tuple(bytes, old)
        .tuple(bytes, tuple)
}

fn delete(m: Delete, bytes: &[u8]) -> List {
    List::new(b'D')
        .number(m.xid)
        .number(m.relation)
        .number(m.image)
        .tuple(bytes, m.tuple)
}

fn truncate(m: Truncate) -> List {
    List::new(b'T')
        .number(m.xid)
        .number(m.count)
        .number(m.options)
        .offset(m.relations)
}

fn logical_message(m: LogicalMessage) -> List {
    List::new(b'M')
        .number(m.xid)
        .number(m.flags)
        .number(m.lsn)
        .span(m.prefix)
        .span(m.content)
}

fn stream_start(xid: u32, first: u8) -> List {
    List::new(b'S').number(xid).number(first)
}

fn stream_commit(m: StreamCommit) -> List {
    List::new(b'c')
        .number(m.xid)
        .number(m.flags)
        .number(m.commit_lsn)
        .number(m.end_lsn)
        .time(m.time)
}

fn stream_abort(xid: u32, sub_xid: u32) -> List {
    List::new(b'A').number(xid).number(sub_xid)
}

fn message(m: Message, bytes: &[u8]) -> List {
    match m {
        Message::Begin(m) => begin(m),
        Message::Commit(m) => commit(m),
        Message::Origin(m) => origin(m),
        Message::Relation(m) => relation(m),
        Message::Type(m) => named_type(m),
        Message::Insert(m) => insert(m, bytes),
        Message::Update(m) => update(m, bytes),
        Message::Delete(m) => delete(m, bytes),
        Message::Truncate(m) => truncate(m),
        Message::Message(m) => logical_message(m),
        Message::StreamStart { xid, first } => stream_start(xid, first),
        Message::StreamStop => List::new(b'E'),
        Message::StreamCommit(m) => stream_commit(m),
        Message::StreamAbort { xid, sub_xid } => stream_abort(xid, sub_xid),
    }
}

// What the reader gave for `bytes`.
pub fn seen(read: Result<Message, Refusal>, bytes: &[u8]) -> Answer
    ensures { (number_of result ≡ number_of read) × (told_offset result ≡ offset_of (length bytes.now) read) }
{
    Ok(Seen {
        length: bytes.len(),
        values: message(read?, bytes).0,
    })
}
