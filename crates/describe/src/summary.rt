// What is counted while a trace is told, and the lines at its end.
use crate::answers::Reason;
use crate::records::{Damage, HEAD};
use crate::text::Count;
use crate::turns::Turns;
use session::{Answer, Place};
use wire::Refusal;

// How many numbers a session refuses with, and 0.
const NUMBERS: usize = 14;

// How many messages were given, were accepted, were refused with each number, or were too long; the bytes of their records; and the
// blocks that may change places.
#[derive(Clone, Copy)]
pub struct Counts {
    given: u64,
    accepted: u64,
    long: u64,
    bytes: u64,
    refused: [u64; NUMBERS],
    turns: Turns,
}

fn add(count: &mut u64, more: u64) {
    *count = count.wrapping_add(more);
}

impl Counts {
    pub fn none() -> Counts {
        Counts {
            given: 0,
            accepted: 0,
            long: 0,
            bytes: 0,
            refused: [0; NUMBERS],
            turns: Turns::none(),
        }
    }

    // The index of the next message.
    pub fn index(&self) -> u64 {
        self.given.wrapping_add(self.long)
    }

    fn add_bytes(&mut self, size: usize) {
        add(&mut self.bytes, HEAD as u64);
        add(&mut self.bytes, size as u64);
    }

    pub fn add_long(&mut self, size: usize) {
        add(&mut self.long, 1);
        self.turns.add_break();
        self.add_bytes(size);
    }

    // After a message that found the session at one place and left it at another.
    pub fn add_message(&mut self, before: Place, answer: Answer, after: Place, size: usize) {
        add(&mut self.given, 1);
        self.turns.add(before, answer, after);
        if let Err(Refusal { number, .. }) = answer {
            if let Some(count) = self.refused.get_mut(usize::from(number)) {
                add(count, 1);
            }
        } else {
            add(&mut self.accepted, 1);
        }
        self.add_bytes(size);
    }

    fn tell_counts(&self, rt: &impl Print) {
        let given = Count(self.given, "message");
        let accepted = self.accepted;
        let refused = self.given.wrapping_sub(accepted);
        let long = self.long;
        let _ = println!(rt;
            "summary: {given} given, {accepted} accepted, {refused} refused; {long} too long and skipped"
        );
    }

    fn tell_refusals(&self, rt: &impl Print) {
        for (number, count) in (0..).zip(self.refused).skip(1) {
            if count != 0 {
                let reason = Reason(number);
                let _ = println!(rt; "summary: {count} refused {number}: {reason}");
            }
        }
    }

    fn tell_turns(&self, rt: &impl Print) {
        let pairs = self.turns.pairs();
        if pairs == 0 {
            return;
        }
        let pairs = Count(pairs, "pair");
        let _ = println!(rt;
            "summary: {pairs} of neighbouring blocks, of different xids and all accepted, may change places: answers stay the same, and released bytes where a keeper has room for both"
        );
    }

    // The summary, with how the trace ends behind the records that were counted.
    pub fn tell(&self, rt: &impl Print, damage: Option<Damage>) {
        self.tell_counts(rt);
        self.tell_refusals(rt);
        self.tell_turns(rt);
        let bytes = self.bytes;
        let _ = match damage {
            None => println!(rt; "summary: whole, {}", Count(bytes, "byte")),
            Some(damage) => println!(rt; "summary: damaged record at byte {bytes}: {damage}"),
        };
    }
}
