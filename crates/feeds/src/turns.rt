// Neighbouring blocks of recorded feeds change places. The messages of the feeds are given in one order of the blocks after another, each
// to fresh sessions, and what every message gets is compared with what it got in the recorded order. A message's tag is its index in that.
use crate::blocks::{Plan, Turned};
use crate::giving::Sessions;
use std::alloc::AllocError;

// About so many messages are given, in all orders together.
const GIVEN: usize = 1_000_000;

// How often blocks of different transactions changed places, and how many messages got something else then; how often blocks of one
// transaction did, and how often that made a difference.
#[derive(Clone, Copy)]
struct Walk {
    exchanges: usize,
    others: usize,
    tries: usize,
    differences: usize,
}

impl Walk {
    // The blocks at `k` and behind it change places, all is given anew, and they go back if they don't stay.
    fn turn(&mut self, plan: &mut Plan<'_>, k: usize, sessions: &mut Sessions) {
        plan.exchange(k);
        plan.run(sessions);
        let others = plan.others();
        let turned = plan.turned(k);
        match turned {
            Turned::OneTransaction => {
                self.tries = self.tries.saturating_add(1);
                self.differences = self.differences.saturating_add(usize::from(others != 0));
            }
            Turned::Stays => {
                self.exchanges = self.exchanges.saturating_add(1);
                self.others = self.others.saturating_add(others);
            }
            Turned::Refused => {}
        }
        if turned != Turned::Stays {
            plan.exchange(k);
        }
    }

    // Exchanges neighbours so many times, each time a pair by the next number of a linear congruential generator.
    fn turn_all(&mut self, plan: &mut Plan<'_>, times: usize, sessions: &mut Sessions) {
        let pairs = plan.blocks().saturating_sub(1).max(1);
        let mut number: usize = 1;
        for _ in 0..times {
            number = number % 2_147_483_647 * 48_271 % 2_147_483_647;
            self.turn(plan, number % pairs, sessions);
        }
    }
}

fn run_all(rt: &impl Print, plan: &mut Plan<'_>, sessions: &mut Sessions) {
    plan.run(sessions);
    plan.record();
    sessions.print_counts(rt, plan.messages);
    let _ = println!(rt; "{} of them in {} blocks", plan.in_blocks, plan.blocks());
    let mut walk = Walk {
        exchanges: 0,
        others: 0,
        tries: 0,
        differences: 0,
    };
    walk.turn_all(
        plan,
        GIVEN.checked_div(plan.messages).unwrap_or(0),
        sessions,
    );
    let Walk {
        exchanges,
        others,
        tries,
        differences,
    } = walk;
    let _ = println!(rt;
        "{exchanges} exchanges of blocks of different transactions: {others} messages got something else"
    );
    let _ = println!(rt;
        "{tries} exchanges of blocks of one transaction: {differences} made a difference"
    );
}

// Exchanges neighbouring blocks of the feeds in a trace.
pub fn take_turns(
    rt: &(impl Print + AllocGlobal),
    trace: &[u8],
    sessions: &mut Sessions,
) -> Result<(), AllocError> {
    let mut plan = Plan::of(rt.alloc(), trace)?;
    if plan.has_room() {
        run_all(rt, &mut plan, sessions);
    } else {
        let _ = rt.println("too many messages");
    }
    Ok(())
}
