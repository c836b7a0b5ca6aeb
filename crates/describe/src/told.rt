// A message in words: its kind, its numbers, its names and its columns.
use crate::lists::{RelationColumns, Relations, Tuple};
use crate::text::{Count, Lsn, Shape, Text};
use crate::time::Time;
use message::{Delete, Kind, LogicalMessage, Message, OldTuple, Relation, Truncate, Type, Update};
use std::fmt;
use wire::{Refusal, Span};

// The kind that the first byte of a message names, and the byte itself where it names none.
#[derive(Clone, Copy)]
pub struct First(pub Option<u8>);

// What reading bytes gave: the message, with the types of its columns where they are known, or that the bytes are none.
#[derive(Clone, Copy)]
pub struct Told<'a> {
    pub read: Result<Message, Refusal>,
    pub bytes: &'a [u8],
    pub types: &'a [u32],
}

// The xid that stands only inside a stream block.
#[derive(Clone, Copy)]
struct BlockXid(u32);

#[derive(Clone, Copy)]
struct Options(u8);

// A namespace and a name in it.
#[derive(Clone, Copy)]
struct Name<'a> {
    namespace: Text<'a>,
    name: Text<'a>,
}

// Where and when a transaction committed.
#[derive(Clone, Copy)]
struct Committed {
    lsn: Lsn,
    end_lsn: Lsn,
    time: Time,
}

fn name_of(kind: Kind) -> &'static str {
    match kind {
        Kind::Begin => "Begin",
        Kind::Commit => "Commit",
        Kind::Origin => "Origin",
        Kind::Relation => "Relation",
        Kind::Type => "Type",
        Kind::Insert => "Insert",
        Kind::Update => "Update",
        Kind::Delete => "Delete",
        Kind::Truncate => "Truncate",
        Kind::Message => "Message",
        Kind::StreamStart => "Stream Start",
        Kind::StreamStop => "Stream Stop",
        Kind::StreamCommit => "Stream Commit",
        Kind::StreamAbort => "Stream Abort",
    }
}

impl fmt::Display for First {
    fn fmt<W: fmt::Write>(&self, f: &mut fmt::Formatter<W>) -> fmt::Result {
        let Some(letter) = self.0 else {
            return write!(f, "Empty");
        };
        match message::kind_of(letter) {
            Some(kind) => f.write_str(name_of(kind)),
            None => write!(f, "Unknown {}", Text(&[letter])),
        }
    }
}

impl fmt::Display for BlockXid {
    fn fmt<W: fmt::Write>(&self, f: &mut fmt::Formatter<W>) -> fmt::Result {
        match self.0 {
            0 => Ok(()),
            xid => write!(f, " xid {xid}"),
        }
    }
}

impl fmt::Display for Options {
    fn fmt<W: fmt::Write>(&self, f: &mut fmt::Formatter<W>) -> fmt::Result {
        f.write_str(match self.0 {
            0 => "",
            Truncate::CASCADE => ", cascade",
            Truncate::RESTART_IDENTITY => ", restart identity",
            _ => ", cascade, restart identity",
        })
    }
}

impl fmt::Display for Name<'_> {
    fn fmt<W: fmt::Write>(&self, f: &mut fmt::Formatter<W>) -> fmt::Result {
        let Name { namespace, name } = *self;
        write!(f, "{namespace}.{name}")
    }
}

impl Committed {
    fn new(lsn: u64, end_lsn: u64, time: i64) -> Committed {
        Committed {
            lsn: Lsn(lsn),
            end_lsn: Lsn(end_lsn),
            time: Time(time),
        }
    }
}

impl fmt::Display for Committed {
    fn fmt<W: fmt::Write>(&self, f: &mut fmt::Formatter<W>) -> fmt::Result {
        let Committed { lsn, end_lsn, time } = *self;
        write!(f, "LSN {lsn}, end LSN {end_lsn}, time {time}")
    }
}

impl<'a> Told<'a> {
    fn text(self, span: Span) -> Text<'a> {
        Text(columns::part(self.bytes, span))
    }

    fn name(self, namespace: Span, name: Span) -> Name<'a> {
        Name {
            namespace: self.text(namespace),
            name: self.text(name),
        }
    }

    // The tuple whose count stands at an offset.
    fn tuple(self, start: usize) -> Tuple<'a> {
        Tuple {
            bytes: self.bytes,
            start,
            types: self.types,
        }
    }

    fn write_relation<W: fmt::Write>(self, f: &mut fmt::Formatter<W>, x: Relation) -> fmt::Result {
        let name = self.name(x.namespace, x.name);
        let xid = BlockXid(x.xid);
        let shape = Shape {
            identity: x.identity,
            columns: x.count,
        };
        let columns = RelationColumns {
            bytes: self.bytes,
            start: x.columns,
            count: x.count,
        };
        write!(f, " {} {name}{xid}, {shape}{columns}", x.relation)
    }

    fn write_type<W: fmt::Write>(self, f: &mut fmt::Formatter<W>, x: Type) -> fmt::Result {
        let name = self.name(x.namespace, x.name);
        write!(f, " {} {name}{}", x.oid, BlockXid(x.xid))
    }

    fn write_old<W: fmt::Write>(self, f: &mut fmt::Formatter<W>, old: OldTuple) -> fmt::Result {
        match old {
            OldTuple::Nothing => Ok(()),
            OldTuple::Key(start) => write!(f, ", key{}", self.tuple(start)),
            OldTuple::Full(start) => write!(f, ", old{}", self.tuple(start)),
        }
    }

    fn write_update<W: fmt::Write>(self, f: &mut fmt::Formatter<W>, x: Update) -> fmt::Result {
        write!(f, "{} of {}", BlockXid(x.xid), x.relation)?;
        self.write_old(f, x.old)?;
        write!(f, ", new{}", self.tuple(x.tuple))
    }

    fn write_delete<W: fmt::Write>(self, f: &mut fmt::Formatter<W>, x: Delete) -> fmt::Result {
        let old = if x.image == b'K' {
            OldTuple::Key(x.tuple)
        } else {
            OldTuple::Full(x.tuple)
        };
        write!(f, "{} from {}", BlockXid(x.xid), x.relation)?;
        self.write_old(f, old)
    }

    fn write_truncate<W: fmt::Write>(self, f: &mut fmt::Formatter<W>, x: Truncate) -> fmt::Result {
        let xid = BlockXid(x.xid);
        let options = Options(x.options);
        let count = Count(u64::from(x.count), "relation");
        let relations = Relations {
            bytes: self.bytes,
            start: x.relations,
            count: x.count,
        };
        write!(f, "{xid}{options}, {count}{relations}")
    }

    fn write_logical_message<W: fmt::Write>(
        self,
        f: &mut fmt::Formatter<W>,
        x: LogicalMessage,
    ) -> fmt::Result {
        let xid = BlockXid(x.xid);
        let transactional = if x.flags == 1 { " transactional" } else { "" };
        let lsn = Lsn(x.lsn);
        let prefix = self.text(x.prefix);
        let content = self.text(x.content);
        write!(
            f,
            "{xid}{transactional}, LSN {lsn}, prefix {prefix}, content {content}"
        )
    }

    fn write_fields<W: fmt::Write>(self, f: &mut fmt::Formatter<W>, m: Message) -> fmt::Result {
        match m {
            Message::Begin(x) => {
                let lsn = Lsn(x.final_lsn);
                write!(f, " xid {}, final LSN {lsn}, time {}", x.xid, Time(x.time))
            }
            Message::Commit(x) => write!(f, " {}", Committed::new(x.commit_lsn, x.end_lsn, x.time)),
            Message::Origin(x) => write!(f, " {}, LSN {}", self.text(x.name), Lsn(x.lsn)),
            Message::Relation(x) => self.write_relation(f, x),
            Message::Type(x) => self.write_type(f, x),
            Message::Insert(x) => {
                let tuple = self.tuple(x.tuple);
                write!(f, "{} into {}, new{tuple}", BlockXid(x.xid), x.relation)
            }
            Message::Update(x) => self.write_update(f, x),
            Message::Delete(x) => self.write_delete(f, x),
            Message::Truncate(x) => self.write_truncate(f, x),
            Message::Message(x) => self.write_logical_message(f, x),
            Message::StreamStart { xid, first } => {
                write!(f, " xid {xid}{}", if first == 1 { " first" } else { "" })
            }
            Message::StreamStop => Ok(()),
            Message::StreamCommit(x) => {
                let committed = Committed::new(x.commit_lsn, x.end_lsn, x.time);
                write!(f, " xid {}, {committed}", x.xid)
            }
            Message::StreamAbort { xid, sub_xid } => write!(f, " xid {xid}, sub-xid {sub_xid}"),
        }
    }
}

impl fmt::Display for Told<'_> {
    fn fmt<W: fmt::Write>(&self, f: &mut fmt::Formatter<W>) -> fmt::Result {
        let bytes = self.bytes;
        write!(f, "{}", First(bytes.first().copied()))?;
        match self.read {
            Ok(m) => self.write_fields(f, m),
            Err(_) => {
                let count = Count(bytes.len() as u64, "byte");
                write!(f, ", {count}, not readable")
            }
        }
    }
}
