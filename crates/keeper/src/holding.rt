// The keeper's own judgement of a message that the session accepts, and what an accepted one makes of its buffer.
ghost use Rattle.std.specs.Prelude.{◌≡◌, true, List, ℕ, ◌+◌, leb, length, IfOk};
ghost use Rattle.std.specs.Result.{result_and};
ghost use Rattle.session.specs.Answers.{Answer, Accepted};
ghost use Rattle.session.specs.Rules.{accepts};
ghost use Rattle.session.specs.Acts.{event_in};
ghost use Rattle.keeper.specs.Rules.{doing, laid, rule_room, rule_keeper};
ghost use Rattle.keeper.specs.Records.{hold};
ghost use Rattle.keeper.specs.Machine.{appended, hold_after, released_from, space_in, deed_of};

use crate::{Deed, records};
use session::{Act, Place};
use wire::Refusal;

// Whether a record of a message of `n` bytes fits behind what is held.
fn has_room(room: usize, held: usize, n: usize) -> bool
    ensures { result ≡ leb (held + (14 + n)) room }
{
    held <= room && 14 <= room - held && n <= room - held - 14
}

// What a change of `n` bytes gets that the session accepts: in a block there must be room for its record.
pub fn rule_room(place: Place, room: usize, held: usize, n: usize) -> Result<(), Refusal>
    ensures { (o l : ℕ) (a : Answer) → result_and result a ≡ rule_room (record { room = room; held = held; output = o; released = l }) place n a }
{
    match place {
        Place::Block(_) if !has_room(room, held, n) => Err(Refusal {
            number: Refusal::KEEPER,
            offset: 0,
        }),
        Place::Idle | Place::Transaction(_) | Place::Block(_) => Ok(()),
    }
}

// What a message does to what is kept.
pub fn deed_of(a: Act) -> Deed
    ensures { (xs : List ℕ) → deed_of result ≡ doing (event_in a xs) }
{
    match a {
        Act::Truncate { xid, .. } => Deed::Keeps(xid),
        Act::StreamCommit { xid } => Deed::Frees(xid),
        Act::StreamAbort { xid, sub } => Deed::Drops { xid, sub },
        _ => Deed::Nothing,
    }
}

// What a message gets that the session accepts: how many bytes it releases.
pub fn judge(
    buffer: &[u8],
    held: usize,
    out: usize,
    place: Place,
    d: Deed,
    n: usize,
) -> Result<usize, Refusal>
    ensures ruled { (a : Answer) → result_and result a ≡ rule_keeper (space_in (hold buffer.now held) out (deed_of d)) (deed_of d) place n a }
    ensures released { IfOk result (λ k. k ≡ length (released_from (deed_of d) (hold buffer.now held))) }
{
    match d {
        Deed::Nothing | Deed::Drops { .. } => Ok(0),
        Deed::Keeps(_) => {
            rule_room(place, buffer.len(), held, n)?;
            Ok(0)
        }
        Deed::Frees(xid) => {
            let released = records::size_of(buffer, held, xid);
            if out < released {
                return Err(Refusal {
                    number: Refusal::OUTPUT,
                    offset: 0,
                });
            }
            Ok(released)
        }
    }
}

// A change's record behind what is held, in a block: how many bytes are held then.
pub fn join(buffer: &mut [u8], held: usize, place: Place, own: u64, bytes: &[u8]) -> usize
    requires { accepts (rule_room (record { room = length buffer.old; held = held; output = 0; released = 0 }) place (length bytes.now) Accepted) ≡ true }
    ensures { hold buffer.new result ≡ appended place own bytes.now (hold buffer.old held) }
{
    match place {
        Place::Idle => held,
        Place::Transaction(_) => held,
        Place::Block(top) => records::append(buffer, held, top, own, bytes),
    }
}

// What an accepted message makes of the buffer and the output: how many bytes are held then.
pub fn apply(
    buffer: &mut [u8],
    held: usize,
    out: &mut [u8],
    place: Place,
    d: Deed,
    bytes: &[u8],
) -> usize
    requires { accepts (rule_keeper (space_in (hold buffer.old held) (length out.old) (deed_of d)) (deed_of d) place (length bytes.now) Accepted) ≡ true }
    ensures { (out.new ≡ laid (released_from (deed_of d) (hold buffer.old held)) out.old) × (hold buffer.new result ≡ hold_after (deed_of d) place bytes.now (hold buffer.old held)) }
{
    match d {
        Deed::Nothing => held,
        Deed::Keeps(own) => join(buffer, held, place, own, bytes),
        Deed::Frees(xid) => records::release(buffer, held, xid, out),
        Deed::Drops { xid, sub } if xid == sub => records::remove(buffer, held, xid, None),
        Deed::Drops { xid, sub } => records::remove(buffer, held, xid, Some(sub)),
    }
}
