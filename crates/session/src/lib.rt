#![tactic(auto)]

ghost use Rattle.std.specs.Prelude.{◌≡◌, [], get_or, ℕ};
ghost use Rattle.session.specs.Answers.{Accepted};
ghost use Rattle.session.specs.Events.{Change};
ghost use Rattle.session.specs.Rules.{answers, named, unnamed};
ghost use Rattle.session.specs.Machine.{stepped, event_step, step_of, start_of};
ghost use Rattle.session.specs.Listed.{between, messages_in, last_or};
ghost use Rattle.session.specs.Acts.{tuples_of};

use catalog::announcements::{Announcement, Announcements};
use catalog::streams::Streams;
use message::Version;
use wire::Refusal;

mod acts;
mod asking;
mod heads;
mod judging;
mod rules;
pub mod stages;
mod storing;

pub use asking::{place_of, read_in, version_of, visible_in};

// Where a session stands: idle, between Begin and Commit (with the Begin's final LSN), or in a stream block (of an xid).
#[derive(Clone, Copy)]
pub enum Place {
    Idle,
    Transaction(u64),
    Block(u32),
}

// What a message gets: it is accepted, a change with its announcement, or it is refused.
pub type Answer = Result<Option<Announcement>, Refusal>;

// A session without its arrays: where it stands, whether the transaction between Begin and Commit had a change, and how many rows of
// the announcements are in use. Each content means something.
#[derive(Clone, Copy)]
struct Head {
    final_lsn: u64,
    version: u32,
    current_xid: u32,
    phase: u32,
    changed: u16,
    rows: u16,
}

// The phases, numbers in the record that C holds; any other number is idle too.
impl Head {
    const IDLE: u32 = 0;

    const TRANSACTION: u32 = 1;

    const BLOCK: u32 = 2;
}

// A session: the numbers of its head, in words, and the catalog's tables, which alone knows what stands where in them.
#[repr(C)]
#[derive(Clone, Copy)]
pub struct Session {
    pub head: [u64; 6],
    pub streams: Streams,
    pub announcements: Announcements,
}

// A session after a message, and the message's answer.
#[derive(Clone, Copy)]
pub struct Stepped {
    pub session: Session,
    pub answer: Answer,
}

// What the session looks at in a message is in whole words: smaller numbers would be packed and unpacked with those of other kinds.

// The tuples of an Insert, Update or Delete, each with its letter and column count. An old one with the letter 0 is none,
// in a whole word as the rest.
#[derive(Clone, Copy)]
pub struct Tuples {
    pub old: u64,
    pub old_count: u64,
    pub letter: u64,
    pub count: u64,
}

// The letters of a change's tuples: `N`, the new row; `K`, the key; `O`, the whole old row.
impl Tuples {
    const NEW: u64 = 0x4E;

    const KEY: u64 = 0x4B;

    const OLD: u64 = 0x4F;
}

// What a Relation announces of its columns.
#[derive(Clone, Copy)]
pub struct Shape {
    pub identity: u64,
    pub columns: u64,
}

// A message of another kind. A Message is transactional (flag 1) or a marker (flag 0).
#[derive(Clone, Copy)]
pub enum Act {
    Begin { lsn: u64, xid: u32 },
    Commit { lsn: u64 },
    Origin,
    Relation { oid: u32, shape: Shape },
    Truncate { count: u32, start: usize, xid: u64 },
    Neutral,
    Transactional,
    Marker,
    StreamStart { xid: u32, first: u64 },
    StreamStop,
    StreamCommit { xid: u32 },
    StreamAbort { xid: u32, sub: u32 },
}

// What is heard of a message: an Insert, Update or Delete, or a message of another kind. Most messages are changes, and a path of their
// own is shorter.
#[derive(Clone, Copy)]
pub enum Looked {
    Change { oid: u32, xid: u64, tuples: Tuples },
    Other(Act),
}

// Gives a session a change: judge and, where that accepts, apply.
fn step_change(session: &mut Session, oid: u32, tuples: Tuples) -> Answer
    ensures { (x tag : ℕ) → stepped session.new result ≡ event_step session.old (Change x oid (tuples_of tuples)) tag }
{
    let seen = stages::judge_change(session, oid, tuples)?;
    stages::apply_change(session);
    Ok(seen)
}

// A session of a version, any number: idle, with nothing open and nothing announced.
#[tactic(auto, unfolding(crate::specs::Machine::start_of))]
pub fn start(version: u32) -> Session
    ensures { result ≡ start_of (named version) }
{
    Session {
        head: [0, u64::from(version), 0, 0, 0, 0],
        streams: Streams {
            xids: [0; 16],
            marks: [0; 16],
        },
        announcements: Announcements {
            keys: [0; 256],
            tags: [0; 256],
            identities: [0; 256],
            columns: [0; 256],
        },
    }
}

// A session with no version named: version 1.
#[tactic(auto, unfolding(crate::specs::Machine::start_of))]
pub fn start_default() -> Session
    ensures { result ≡ start_of unnamed }
{
    start(Version::FIRST)
}

// Gives a session, passed by value, one message: the session after it, and the message's answer.
pub fn step(session: Session, bytes: &[u8], tag: u64) -> Stepped
    ensures { result ≡ step_of session bytes.now tag }
{
    let mut session = session;
    let answer = give_lent(&mut session, bytes, tag);
    Stepped { session, answer }
}

// Starts a session in the record that is lent.
pub fn start_in(session: &mut Session, version: u32)
    ensures { session.new ≡ start_of (named version) }
{
    *session = start(version);
}

// Gives the session that is lent one message.
pub fn give(session: &mut Session, bytes: &[u8], tag: u64) -> Answer
    ensures { stepped session.new result ≡ step_of session.old bytes.now tag }
{
    let stepped = step(*session, bytes, tag);
    *session = stepped.session;
    stepped.answer
}

// The same with no copy of the record: look, judge and, where that accepts, apply. The head's numbers are loaded where they are needed and
// stored where they change.
pub fn give_lent(session: &mut Session, bytes: &[u8], tag: u64) -> Answer
    ensures { stepped session.new result ≡ step_of session.old bytes.now tag }
{
    let looked = stages::look(&session.head, bytes)?;
    match looked {
        Looked::Change { oid, tuples, .. } => step_change(session, oid, tuples),
        Looked::Other(a) => {
            let seen = stages::judge_act(session, a, bytes)?;
            stages::apply_act(session, a, tag);
            Ok(seen)
        }
    }
}

// The part of `bytes` from `start` to `end`, or no bytes where these are no part of it.
fn part(bytes: &[u8], start: usize, end: usize) -> &[u8]
    ensures { result.now ≡ between start end bytes.now }
{
    bytes.get(start..end).unwrap_or(&[])
}

// A tag that lacks is 0.
fn tag_at(tags: &[u64], i: usize) -> u64
    ensures { result ≡ get_or tags.now i 0 }
{
    tags.get(i).copied().unwrap_or(0)
}

// What a fresh session answers to the last message of a list, each given to it as the one before left it: the messages
// lie in `bytes` one after another, each ends where `ends` says. With no message the answer is that it is accepted.
pub fn last_answer(version: u32, bytes: &[u8], ends: &[usize], tags: &[u64]) -> Answer
    ensures { result ≡ last_or Accepted (answers (record { number = version }) [] (messages_in bytes.now 0 ends.now tags.now)) }
{
    let mut now = Stepped {
        session: start(version),
        answer: Ok(None),
    };
    let mut from: usize = 0;
    for (i, &end) in ends.iter().enumerate() {
        now = step(now.session, part(bytes, from, end), tag_at(tags, i));
        from = end;
    }
    now.answer
}
