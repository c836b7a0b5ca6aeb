// Messages that are made up of the numbers of a line.
use crate::text::Text;
use message::{
    Begin, Commit, Delete, Insert, LogicalMessage, Message, OldTuple, Origin, Relation,
    StreamCommit, Truncate, Type, Update,
};
use wire::Span;

impl<'a> Text<'a> {
    fn offset(&mut self) -> usize {
        self.number() as usize
    }

    fn word(&mut self) -> u32 {
        (self.number() & 0xFFFF_FFFF) as u32
    }

    fn short(&mut self) -> u16 {
        (self.number() & 0xFFFF) as u16
    }

    fn byte(&mut self) -> u8 {
        (self.number() & 0xFF) as u8
    }

    fn time(&mut self) -> i64 {
        self.number().cast_signed()
    }

    fn span(&mut self) -> Span {
        Span {
            start: self.offset(),
            length: self.offset(),
        }
    }

    fn old_tuple(&mut self) -> OldTuple {
        let letter = self.byte();
        let start = self.offset();
        match letter {
            b'K' => OldTuple::Key(start),
            b'O' => OldTuple::Full(start),
            _ => OldTuple::Nothing,
        }
    }
}

fn begin(mut n: Text) -> Message {
    Message::Begin(Begin {
        final_lsn: n.number(),
        time: n.time(),
        xid: n.word(),
    })
}

fn commit(mut n: Text) -> Message {
    Message::Commit(Commit {
        flags: n.byte(),
        commit_lsn: n.number(),
        end_lsn: n.number(),
        time: n.time(),
    })
}

fn origin(mut n: Text) -> Message {
    Message::Origin(Origin {
        lsn: n.number(),
        name: n.span(),
    })
}

fn relation(mut n: Text) -> Message {
    Message::Relation(Relation {
        xid: n.word(),
        relation: n.word(),
        namespace: n.span(),
        name: n.span(),
        identity: n.byte(),
        count: n.short(),
        columns: n.offset(),
    })
}

fn named_type(mut n: Text) -> Message {
    Message::Type(Type {
        xid: n.word(),
        oid: n.word(),
        namespace: n.span(),
        name: n.span(),
    })
}

fn insert(mut n: Text) -> Message {
    Message::Insert(Insert {
        xid: n.word(),
        relation: n.word(),
        tuple: n.offset(),
    })
}

fn update(mut n: Text) -> Message {
    Message::Update(Update {
        xid: n.word(),
        relation: n.word(),
        old: n.old_tuple(),
        tuple: n.offset(),
    })
}

fn delete(mut n: Text) -> Message {
    Message::Delete(Delete {
        xid: n.word(),
        relation: n.word(),
        image: n.byte(),
        tuple: n.offset(),
    })
}

fn truncate(mut n: Text) -> Message {
    Message::Truncate(Truncate {
        xid: n.word(),
        count: n.word(),
        options: n.byte(),
        relations: n.offset(),
    })
}

fn logical_message(mut n: Text) -> Message {
    Message::Message(LogicalMessage {
        xid: n.word(),
        flags: n.byte(),
        lsn: n.number(),
        prefix: n.span(),
        content: n.span(),
    })
}

fn stream_commit(mut n: Text) -> Message {
    Message::StreamCommit(StreamCommit {
        xid: n.word(),
        flags: n.byte(),
        commit_lsn: n.number(),
        end_lsn: n.number(),
        time: n.time(),
    })
}

fn stream_start(mut n: Text) -> Message {
    Message::StreamStart {
        xid: n.word(),
        first: n.byte(),
    }
}

fn stream_abort(mut n: Text) -> Message {
    Message::StreamAbort {
        xid: n.word(),
        sub_xid: n.word(),
    }
}

// The message of a kind with the numbers that follow in a line.
pub fn message(letter: u8, n: Text) -> Message {
    match letter {
        b'B' => begin(n),
        b'C' => commit(n),
        b'O' => origin(n),
        b'R' => relation(n),
        b'Y' => named_type(n),
        b'I' => insert(n),
        b'U' => update(n),
        b'D' => delete(n),
        b'T' => truncate(n),
        b'M' => logical_message(n),
        b'S' => stream_start(n),
        b'c' => stream_commit(n),
        b'A' => stream_abort(n),
        _ => Message::StreamStop,
    }
}
