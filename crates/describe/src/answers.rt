// A session's answer in words, with the numbers that it came from.
use crate::items::{Cell, Items};
use crate::text::{Count, Hex, Lsn, Shape};
use catalog::announcements::Announcement;
use columns::TruncatedRelation;
use message::Message;
use session::{Answer, Place, Session};
use std::fmt;
use wire::Refusal;

// The words for a refusal's number.
#[derive(Clone, Copy)]
pub struct Reason(pub u8);

// The answer to a message, with the session before it and what reading its bytes gave.
#[derive(Clone, Copy)]
pub struct Answered<'a> {
    pub answer: Answer,
    pub session: &'a Session,
    pub read: Result<Message, Refusal>,
    pub bytes: &'a [u8],
}

// An announcement, by the index of its message.
#[derive(Clone, Copy)]
struct Seen(Announcement);

// Where a session stands.
#[derive(Clone, Copy)]
struct Standing(Place);

// That an xid is open or not, where the other was needed.
#[derive(Clone, Copy)]
struct UnfitXid {
    xid: u32,
    is_open: bool,
}

impl fmt::Display for Reason {
    fn fmt<W: fmt::Write>(&self, f: &mut fmt::Formatter<W>) -> fmt::Result {
        f.write_str(match self.0 {
            Refusal::VERSION => "the version is not 1 or 2",
            Refusal::SHORT => "a field goes past the message's end",
            Refusal::KIND => "the first byte is no kind of this version",
            Refusal::FIELD => "a field holds what its layout forbids",
            Refusal::LEFT_OVER => "bytes are left after the last field",
            Refusal::RANGE => "a count is outside its range",
            Refusal::PLACE => "the kind can't stand here",
            Refusal::TRANSACTION => "an xid or LSN doesn't fit what is open",
            Refusal::RELATION => "no visible announcement",
            Refusal::SHAPE => "the shape differs from the announcement",
            Refusal::ANNOUNCEMENTS => "no room for an announcement",
            Refusal::STREAMS => "no room for a streamed transaction",
            Refusal::OUTPUT => "the output is shorter than the message",
            _ => "",
        })
    }
}

impl fmt::Display for Seen {
    fn fmt<W: fmt::Write>(&self, f: &mut fmt::Formatter<W>) -> fmt::Result {
        let Announcement {
            tag,
            identity,
            columns,
        } = self.0;
        let shape = Shape { identity, columns };
        write!(f, "announcement {tag} ({shape})")
    }
}

impl fmt::Display for Standing {
    fn fmt<W: fmt::Write>(&self, f: &mut fmt::Formatter<W>) -> fmt::Result {
        match self.0 {
            Place::Idle => write!(f, "the session is idle"),
            Place::Transaction(_) => write!(f, "the session is in a transaction"),
            Place::Block(xid) => write!(f, "the session is in a block of xid {xid}"),
        }
    }
}

impl fmt::Display for UnfitXid {
    fn fmt<W: fmt::Write>(&self, f: &mut fmt::Formatter<W>) -> fmt::Result {
        let UnfitXid { xid, is_open } = *self;
        let open = if is_open { "open already" } else { "not open" };
        write!(f, ": xid {xid} is {open}")
    }
}

fn oid_of(relation: Cell<TruncatedRelation>) -> u32 {
    relation.item.oid
}

impl Answered<'_> {
    // The relation that a message was refused for: the first of a Truncate that has no visible announcement.
    fn relation(&self, m: Message) -> Option<u32> {
        match m {
            Message::Insert(x) => Some(x.relation),
            Message::Update(x) => Some(x.relation),
            Message::Delete(x) => Some(x.relation),
            Message::Truncate(x) => Items::new(self.bytes, x.relations, x.count as usize)
                .map(oid_of)
                .find(|oid| session::visible_in(*self.session, *oid).is_none()),
            _ => None,
        }
    }

    // Where a kind can't stand.
    fn write_place<W: fmt::Write>(&self, f: &mut fmt::Formatter<W>, m: Message) -> fmt::Result {
        let place = session::place_of(*self.session);
        let why = match (m, place) {
            (Message::Origin(_), Place::Transaction(_) | Place::Block(_)) => {
                " and a change came before"
            }
            (Message::Message(_), _) => " and the Message is transactional",
            _ => "",
        };
        write!(f, ": {}{why}", Standing(place))
    }

    // The xid or LSN that doesn't fit.
    fn write_unfit<W: fmt::Write>(&self, f: &mut fmt::Formatter<W>, m: Message) -> fmt::Result {
        let (xid, is_open) = match m {
            Message::Begin(x) => (x.xid, true),
            Message::StreamStart { xid, first } => (xid, first == 1),
            Message::StreamCommit(x) => (x.xid, false),
            Message::StreamAbort { xid, .. } => (xid, false),
            Message::Commit(_) => return self.write_final_lsn(f),
            _ => return Ok(()),
        };
        write!(f, "{}", UnfitXid { xid, is_open })
    }

    // The final LSN that a Commit needs.
    fn write_final_lsn<W: fmt::Write>(&self, f: &mut fmt::Formatter<W>) -> fmt::Result {
        match session::place_of(*self.session) {
            Place::Transaction(lsn) => write!(f, ": the Begin's final LSN is {}", Lsn(lsn)),
            _ => Ok(()),
        }
    }

    // The relation that has no announcement.
    fn write_relation<W: fmt::Write>(&self, f: &mut fmt::Formatter<W>, m: Message) -> fmt::Result {
        match self.relation(m) {
            Some(oid) => write!(f, " of relation {oid}"),
            None => Ok(()),
        }
    }

    // The announcement that a change differs from.
    fn write_seen<W: fmt::Write>(&self, f: &mut fmt::Formatter<W>, m: Message) -> fmt::Result {
        let oid = self.relation(m);
        match oid.and_then(|oid| session::visible_in(*self.session, oid)) {
            Some(announcement) => write!(f, ": {}", Seen(announcement)),
            None => Ok(()),
        }
    }

    // What a message that could be read was refused for.
    fn write_cause<W: fmt::Write>(
        &self,
        f: &mut fmt::Formatter<W>,
        number: u8,
        m: Message,
    ) -> fmt::Result {
        match number {
            Refusal::PLACE => self.write_place(f, m),
            Refusal::TRANSACTION => self.write_unfit(f, m),
            Refusal::RELATION => self.write_relation(f, m),
            Refusal::SHAPE => self.write_seen(f, m),
            Refusal::ANNOUNCEMENTS => write!(f, ": 256 are live"),
            Refusal::STREAMS => write!(f, ": 16 are open"),
            _ => Ok(()),
        }
    }

    // What bytes that could not be read were refused for.
    fn write_damage<W: fmt::Write>(
        &self,
        f: &mut fmt::Formatter<W>,
        number: u8,
        offset: usize,
    ) -> fmt::Result {
        let Some([first, rest @ ..]) = self.bytes.get(offset..) else {
            return Ok(());
        };
        match number {
            Refusal::VERSION | Refusal::KIND => {
                let version = session::version_of(*self.session);
                write!(f, ": version {}", version.number)
            }
            Refusal::FIELD => write!(f, ": it starts with {}", Hex(&[*first])),
            Refusal::LEFT_OVER => {
                let left = rest.len() as u64;
                write!(f, ": {}", Count(left.saturating_add(1), "byte"))
            }
            _ => Ok(()),
        }
    }
}

impl fmt::Display for Answered<'_> {
    fn fmt<W: fmt::Write>(&self, f: &mut fmt::Formatter<W>) -> fmt::Result {
        match self.answer {
            Ok(None) => write!(f, "accepted"),
            Ok(Some(announcement)) => write!(f, "accepted, {}", Seen(announcement)),
            Err(Refusal { number, offset }) => {
                write!(f, "refused {number} at {offset}: {}", Reason(number))?;
                match self.read {
                    Ok(m) => self.write_cause(f, number, m),
                    Err(_) => self.write_damage(f, number, offset),
                }
            }
        }
    }
}
