#![tactic(auto)]
// A session in the caller's record, with a keeper in the caller's buffer, exported to C. It stands apart from `capi`, for an archive of its
// own: a session's step is fast where its stages have one caller and are compiled as one function.
ghost use Rattle.std.specs.Prelude.{◌≡◌};
ghost use Rattle.keeper.specs.Records.{hold};
ghost use Rattle.keeper.specs.Machine.{step_of};
ghost use Rattle.capi_keeper.specs.Replies.{returned, numbers};

use keeper::Reply;
use session::Session;

fn put_reply(said: Reply, reply: &mut [u64; 5]) -> u32
    ensures { (result ≡ returned said.answer) × (reply.new ≡ numbers said.answer said.released) }
{
    let Reply { answer, released } = said;
    match answer {
        Ok(None) => {
            *reply = [0, 0, 0, 0, released as u64];
            0
        }
        Ok(Some(seen)) => {
            let identity = u64::from(seen.identity);
            *reply = [
                1,
                seen.tag,
                identity,
                u64::from(seen.columns),
                released as u64,
            ];
            0
        }
        Err(refusal) => {
            *reply = [refusal.offset as u64, 0, 0, 0, released as u64];
            u32::from(refusal.number)
        }
    }
}

// Gives a session with a keeper one message, with a tag: the keeper's buffer, how many of its bytes are held, and an output for what is
// released.
#[unsafe(no_mangle)]
pub extern "C" fn kq_keeper_give(
    session: &mut Session,
    bytes: &[u8],
    tag: u64,
    buffer: &mut [u8],
    held: &mut usize,
    out: &mut [u8],
    reply: &mut [u64; 5],
) -> u32
    ensures { let t = step_of session.old (hold buffer.old held.old) out.old bytes.now tag in
        (session.new ≡ t.session) × (buffer.new ≡ t.outcome.buffer) × (held.new ≡ t.outcome.held) × (out.new ≡ t.outcome.output)
        × (result ≡ returned t.outcome.answer) × (reply.new ≡ numbers t.outcome.answer t.outcome.released) }
{
    let said = keeper::give_lent(session, bytes, tag, buffer, held, out);
    put_reply(said, reply)
}
