// The stages of a step: LOOK, JUDGE and, where that accepts, APPLY. The crates above may put a test of their own between the last two.
ghost use Rattle.std.specs.Prelude.{◌≡◌, List, ℕ};
ghost use Rattle.session.specs.Events.{Tuple, Change};
ghost use Rattle.session.specs.Rules.{hears};
ghost use Rattle.session.specs.Machine.{place_in, version_in, head_in, answer_of, stored_of};
ghost use Rattle.session.specs.Acts.{tuples_of, event_in, heard_in};

use crate::{Act, Answer, Looked, Place, Session, Tuples, acts, heads, judging, rules, storing};
use message::Version;
use wire::Refusal;

// Where a session stands.
pub fn place_in(head: &[u64; 6]) -> Place
    ensures { result ≡ place_in (head_in head.now) }
{
    rules::place_of(heads::head_in(head))
}

// LOOK: what is heard of bytes, or reading's refusal.
pub fn look(head: &[u64; 6], bytes: &[u8]) -> Result<Looked, Refusal>
    ensures { heard_in result bytes.now ≡ hears (version_in (head_in head.now)) (place_in (head_in head.now)) bytes.now }
{
    let now = heads::head_in(head);
    let place = rules::place_of(now);
    let number = now.version;
    let m = reader::read_message(Version { number }, rules::in_block(place), bytes)?;
    Ok(acts::looked_at(m, bytes))
}

// JUDGE: the answer to a change.
pub fn judge_change(session: &Session, oid: u32, tuples: Tuples) -> Answer
    ensures { (x : ℕ) → result ≡ answer_of session.now (Change x oid (tuples_of tuples)) }
{
    let now = heads::head_in(&session.head);
    judging::judge_change(now, &session.announcements, oid, tuples)
}

// The answer to a message of another kind.
pub fn judge_act(session: &Session, a: Act, bytes: &[u8]) -> Answer
    ensures { result ≡ answer_of session.now (event_in a bytes.now) }
{
    let now = heads::head_in(&session.head);
    judging::judge(now, &session.streams, &session.announcements, a, bytes)
}

// APPLY: the record after an accepted change.
pub fn apply_change(session: &mut Session)
    ensures { (x oid : ℕ) (ts : List Tuple) (tag : ℕ) → session.new ≡ stored_of session.old (Change x oid ts) tag }
{
    let next = storing::apply_change(heads::head_in(&session.head), &mut session.streams);
    let version = session.head[1];
    session.head = heads::words_of(next, version);
}

// The record after an accepted message of another kind.
pub fn apply_act(session: &mut Session, a: Act, tag: u64)
    ensures { (xs : List ℕ) → session.new ≡ stored_of session.old (event_in a xs) tag }
{
    let now = heads::head_in(&session.head);
    let next = storing::apply(
        now,
        &mut session.streams,
        &mut session.announcements,
        a,
        tag,
    );
    let version = session.head[1];
    session.head = heads::words_of(next, version);
}
