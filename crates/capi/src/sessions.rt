// A session in the caller's record.
ghost use Rattle.std.specs.Prelude.{◌≡◌};
ghost use Rattle.session.specs.Rules.{named, unnamed};
ghost use Rattle.session.specs.Machine.{step_of, start_of};
ghost use Rattle.capi.specs.Filled.{filled};
ghost use Rattle.capi.specs.Sessions.{answer_numbers};

use message::Version;
use session::{Answer, Session};

// Starts a session of a version, any number.
#[unsafe(no_mangle)]
pub extern "C" fn kq_session_start(session: &mut Session, version: u32)
    ensures { session.new ≡ start_of (named version) }
{
    session::start_in(session, version)
}

// Starts a session with no version named.
#[tactic(auto, unfolding(session::specs::Machine::start_of))]
#[unsafe(no_mangle)]
pub extern "C" fn kq_session_start_default(session: &mut Session)
    ensures { session.new ≡ start_of unnamed }
{
    session::start_in(session, Version::FIRST)
}

fn put_answer(said: Answer, answer: &mut [u64; 4]) -> u32
    ensures { filled result answer.new ≡ answer_numbers said }
{
    match said {
        Ok(None) => {
            *answer = [0; 4];
            0
        }
        Ok(Some(seen)) => {
            *answer = [
                1,
                seen.tag,
                u64::from(seen.identity),
                u64::from(seen.columns),
            ];
            0
        }
        Err(refusal) => {
            *answer = [refusal.offset as u64, 0, 0, 0];
            u32::from(refusal.number)
        }
    }
}

// Gives a session one message, with a tag.
#[unsafe(no_mangle)]
pub extern "C" fn kq_session_give(
    session: &mut Session,
    bytes: &[u8],
    tag: u64,
    answer: &mut [u64; 4],
) -> u32
    ensures { (session.new ≡ (step_of session.old bytes.now tag).session)
        × (filled result answer.new ≡ answer_numbers (step_of session.old bytes.now tag).answer) }
{
    let said = session::give_lent(session, bytes, tag);
    put_answer(said, answer)
}
