#![tactic(auto)]
// Streamed changes are held in a lent buffer until they commit: the step of a session with a keeper.
ghost use Rattle.std.specs.Prelude.{◌≡◌, List, ℕ, Err};
ghost use Rattle.session.specs.Events.{Change};
ghost use Rattle.session.specs.Acts.{tuples_of, event_in};
ghost use Rattle.keeper.specs.Records.{hold};
ghost use Rattle.keeper.specs.Machine.{after, reply, event_after, step_of};

use session::{Act, Answer, Looked, Session, Tuples, stages};
use wire::Refusal;

mod holding;
mod records;

// What a message gets: its answer (the session's, or 13 or 14), and how many bytes it released.
#[derive(Clone, Copy)]
pub struct Reply {
    pub answer: Answer,
    pub released: usize,
}

impl Reply {
    // What a refused message gets: it releases nothing.
    fn refused(refusal: Refusal) -> Reply
        ensures { result ≡ reply (Err refusal) 0 }
    {
        Reply {
            answer: Err(refusal),
            released: 0,
        }
    }
}

// A session after a message, what the message got, and how many bytes are held then.
#[derive(Clone, Copy)]
pub struct KeeperStep {
    pub session: Session,
    pub reply: Reply,
    pub held: usize,
}

// A piece of held bytes: its size, and a record's two xids; what is no record has none.
#[derive(Clone, Copy)]
struct Header {
    size: usize,
    xids: Option<Xids>,
}

// The xid of the block that a record's change came in, and the one that the change carries.
#[derive(Clone, Copy)]
struct Xids {
    top: u32,
    own: u32,
}

// What a message does to what is kept: nothing; a change, under its own xid, is kept; a Stream Commit frees what a transaction kept; a
// Stream Abort drops it, or what it kept under the xid `sub`.
#[derive(Clone, Copy)]
enum Deed {
    Nothing,
    Keeps(u64),
    Frees(u32),
    Drops { xid: u32, sub: u32 },
}

// Gives a session with a keeper a change. The session's answer goes on whole: taken apart by `?` and put together again, a change of a
// block takes a fifth longer.
fn step_change(
    session: &mut Session,
    oid: u32,
    own: u64,
    t: Tuples,
    bytes: &[u8],
    buffer: &mut [u8],
    held: &mut usize,
) -> Answer
    ensures { (tag : ℕ) (out : List ℕ) → after session.new (reply result 0) out (hold buffer.new held.new) ≡ event_after session.old (hold buffer.old held.old) out (Change own oid (tuples_of t)) bytes.now tag }
{
    let at = *held;
    let place = stages::place_in(&session.head);
    let answer = stages::judge_change(session, oid, t);
    if answer.is_err() {
        return answer;
    }
    holding::rule_room(place, buffer.len(), at, bytes.len())?;
    stages::apply_change(session);
    *held = holding::join(buffer, at, place, own, bytes);
    answer
}

// Gives it a message of another kind.
fn step_act(
    session: &mut Session,
    a: Act,
    bytes: &[u8],
    tag: u64,
    buffer: &mut [u8],
    held: &mut usize,
    out: &mut [u8],
) -> Reply
    ensures { after session.new result out.new (hold buffer.new held.new) ≡ event_after session.old (hold buffer.old held.old) out.old (event_in a bytes.now) bytes.now tag }
{
    let at = *held;
    let place = stages::place_in(&session.head);
    let answer = stages::judge_act(session, a, bytes);
    if answer.is_err() {
        return Reply {
            answer,
            released: 0,
        };
    }
    let d = holding::deed_of(a);
    match holding::judge(buffer, at, out.len(), place, d, bytes.len()) {
        Ok(released) => {
            stages::apply_act(session, a, tag);
            *held = holding::apply(buffer, at, out, place, d, bytes);
            Reply { answer, released }
        }
        Err(refusal) => Reply::refused(refusal),
    }
}

// Gives a session, passed by value, one message, with the keeper's buffer, how many of its bytes are held, and an output for what is
// released. Buffer and number stay apart: the caller lends both, and C keeps both.
pub fn step(
    session: Session,
    bytes: &[u8],
    tag: u64,
    buffer: &mut [u8],
    held: usize,
    out: &mut [u8],
) -> KeeperStep
    ensures { after result.session result.reply out.new (hold buffer.new result.held) ≡ step_of session (hold buffer.old held) out.old bytes.now tag }
{
    let mut session = session;
    let mut holds = held;
    let reply = give_lent(&mut session, bytes, tag, buffer, &mut holds, out);
    KeeperStep {
        session,
        reply,
        held: holds,
    }
}

// The same for a session that is lent, with no copy of it: the session looks and judges, the keeper judges, and where both accept both
// store. Nothing is read or judged twice.
pub fn give_lent(
    session: &mut Session,
    bytes: &[u8],
    tag: u64,
    buffer: &mut [u8],
    held: &mut usize,
    out: &mut [u8],
) -> Reply
    ensures { after session.new result out.new (hold buffer.new held.new) ≡ step_of session.old (hold buffer.old held.old) out.old bytes.now tag }
{
    match stages::look(&session.head, bytes) {
        Ok(Looked::Change { oid, xid, tuples }) => Reply {
            answer: step_change(session, oid, xid, tuples, bytes, buffer, held),
            released: 0,
        },
        Ok(Looked::Other(a)) => step_act(session, a, bytes, tag, buffer, held, out),
        Err(refusal) => Reply::refused(refusal),
    }
}
