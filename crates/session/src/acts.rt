// From a message that was read to what the session looks at in it.
ghost use Rattle.std.specs.Prelude.{◌≡◌, List, [], ◌∷◌, ℕ, Ok};
ghost use Rattle.message.specs.Layout.{column_count};
ghost use Rattle.session.specs.Events.{Change, tuple, old_before, event_of};
ghost use Rattle.session.specs.Acts.{tuples_of, event_in, event_looked};

use crate::{Act, Looked, Shape, Tuples};
use message::{LogicalMessage, Message, OldTuple, Relation, Truncate, Update, fields};
use wire::Reader;

// How many columns the tuple at `start` counts.
#[tactic(auto, using(wire::proofs::Given::number_or))]
pub fn count_at(bytes: &[u8], start: usize) -> u64
    ensures { result ≡ (column_count bytes.now (Ok start)).value }
{
    let mut r = Reader {
        bytes,
        next: Ok(start),
    };
    u64::from(fields::column_count(&mut r).unwrap_or(0))
}

// A change that has one tuple.
pub fn change(xid: u32, oid: u32, letter: u64, count: u64) -> Looked
    ensures { (xs : List ℕ) → event_looked result xs ≡ Change xid oid (tuple letter count ∷ []) }
{
    let tuples = Tuples {
        old: 0,
        old_count: 0,
        letter,
        count,
    };
    Looked::Change {
        oid,
        xid: u64::from(xid),
        tuples,
    }
}

// The tuples of an Update.
pub fn updated(old: OldTuple, count: u64, bytes: &[u8]) -> Tuples
    ensures { tuples_of result ≡ old_before old bytes.now (tuple 0x4E count ∷ []) }
{
    let letter = Tuples::NEW;
    match old {
        OldTuple::Nothing => Tuples {
            old: 0,
            old_count: 0,
            letter,
            count,
        },
        OldTuple::Key(start) => Tuples {
            old: Tuples::KEY,
            old_count: count_at(bytes, start),
            letter,
            count,
        },
        OldTuple::Full(start) => Tuples {
            old: Tuples::OLD,
            old_count: count_at(bytes, start),
            letter,
            count,
        },
    }
}

pub fn update(x: Update, bytes: &[u8]) -> Looked
    ensures { event_looked result bytes.now ≡ event_of (Message.Update x) bytes.now }
{
    let Update {
        xid,
        relation,
        old,
        tuple,
        ..
    } = x;
    let count = count_at(bytes, tuple);
    Looked::Change {
        oid: relation,
        xid: u64::from(xid),
        tuples: updated(old, count, bytes),
    }
}

pub fn relation(x: Relation) -> Act
    ensures { (xs : List ℕ) → event_in result xs ≡ event_of (Message.Relation x) xs }
{
    Act::Relation {
        oid: x.relation,
        shape: Shape {
            identity: u64::from(x.identity),
            columns: u64::from(x.count),
        },
    }
}

pub fn truncate(x: Truncate) -> Act
    ensures { (xs : List ℕ) → event_in result xs ≡ event_of (Message.Truncate x) xs }
{
    Act::Truncate {
        count: x.count,
        start: x.relations,
        xid: u64::from(x.xid),
    }
}

pub fn logical(x: LogicalMessage) -> Act
    ensures { (xs : List ℕ) → event_in result xs ≡ event_of (Message.Message x) xs }
{
    if x.flags == 1 {
        Act::Transactional
    } else {
        Act::Marker
    }
}

// What the session looks at in a message that was read, whose bytes are lent.
pub fn looked_at(m: Message, bytes: &[u8]) -> Looked
    ensures { event_looked result bytes.now ≡ event_of m bytes.now }
{
    match m {
        Message::Begin(x) => Looked::Other(Act::Begin {
            lsn: x.final_lsn,
            xid: x.xid,
        }),
        Message::Commit(x) => Looked::Other(Act::Commit { lsn: x.commit_lsn }),
        Message::Origin(_) => Looked::Other(Act::Origin),
        Message::Relation(x) => Looked::Other(relation(x)),
        Message::Type(_) => Looked::Other(Act::Neutral),
        Message::Insert(x) => change(x.xid, x.relation, Tuples::NEW, count_at(bytes, x.tuple)),
        Message::Update(x) => update(x, bytes),
        Message::Delete(x) => change(
            x.xid,
            x.relation,
            u64::from(x.image),
            count_at(bytes, x.tuple),
        ),
        Message::Truncate(x) => Looked::Other(truncate(x)),
        Message::Message(x) => Looked::Other(logical(x)),
        Message::StreamStart { xid, first } => Looked::Other(Act::StreamStart {
            xid,
            first: u64::from(first),
        }),
        Message::StreamStop => Looked::Other(Act::StreamStop),
        Message::StreamCommit(x) => Looked::Other(Act::StreamCommit { xid: x.xid }),
        Message::StreamAbort { xid, sub_xid } => Looked::Other(Act::StreamAbort {
            xid,
            sub: sub_xid,
        }),
    }
}
