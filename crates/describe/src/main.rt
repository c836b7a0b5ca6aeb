#![tactic(auto)]
// Tells a trace on standard input line by line: each message's index, kind, numbers, names and columns, and what a fresh session
// answers to it; and a summary. A binary value is told as a number where its type is known and listed. A trace is records of the mark
// C3 4D, a length of 32 bits and a message. The version is the first argument, 2 where there is none. A message that is longer than
// the room is passed over. What cannot be written is left out.
use answers::Answered;
use arrayvec::ArrayString;
use message::Message;
use records::{Record, Records};
use session::{Session, Stepped};
use std::alloc::{AllocError, Global};
use std::env::{Env, FillError};
use std::fmt::Write;
use std::{io, str};
use summary::Counts;
use text::Text;
use told::{First, Told};
use types::Types;

mod answers;
mod floats;
mod items;
mod lists;
mod records;
mod summary;
mod text;
mod time;
mod told;
mod turns;
mod typed;
mod types;

// The longest line, an Update of two tuples, has less than 20,000 bytes.
const LINE: usize = 20_000;

// A trace as far as it was told, and the line that tells a message, which is written in one.
#[derive(Drop)]
struct Teller {
    session: Session,
    counts: Counts,
    types: Types,
    line: ArrayString<LINE>,
}

impl Teller {
    fn new(alloc: Global, version: u32) -> Teller {
        Teller {
            session: session::start(version),
            counts: Counts::none(),
            types: Types::new(alloc),
            line: ArrayString::new(),
        }
    }

    // Gives the session a message, and tells the message and the answer.
    fn tell_message(&mut self, rt: &impl Print, bytes: &[u8]) -> Result<(), AllocError> {
        let index = self.counts.index();
        let before = self.session;
        let read = session::read_in(before, bytes);
        let Stepped { session, answer } = session::step(before, bytes, index);
        let types = self.types.of(answer);
        let told = Told { read, bytes, types };
        let answered = Answered {
            answer,
            session: &before,
            read,
            bytes,
        };
        self.line.clear();
        let _ = writeln!(self.line, "{index} {told}: {answered}");
        let _ = rt.write_all(self.line.as_bytes());
        let place = session::place_of(before);
        let next = session::place_of(session);
        self.counts.add_message(place, answer, next, bytes.len());
        self.session = session;
        match read {
            Ok(Message::Relation(x)) if answer.is_ok() => { self.types.remember(index, x, bytes) }
            _ => Ok(()),
        }
    }

    fn tell_long(&mut self, rt: &impl Print, letter: u8, size: usize) {
        let index = self.counts.index();
        let first = First(Some(letter));
        let _ = println!(rt;
            "{index} {first}, {size} bytes: too long to show, not given to the session"
        );
        self.counts.add_long(size);
    }

    fn tell(&mut self, rt: &impl Print, record: Record<'_>) -> Result<(), AllocError> {
        match record {
            Record::Message(bytes) => self.tell_message(rt, bytes),
            Record::Long { letter, size } => {
                self.tell_long(rt, letter, size);
                Ok(())
            }
        }
    }
}

fn tell_all(
    rt: &(impl Print + AllocGlobal),
    input: impl io::Read + Drop,
    version: u32,
) -> io::Result<()> {
    let mut records = Records::new(rt.alloc(), input)?;
    let mut teller = Teller::new(rt.alloc(), version);
    // No function runs forever, and an input may have no end: hence a bound.
    for _ in 0..u64::MAX {
        let damage = match records.next_record() {
            Ok(Some(record)) => {
                teller.tell(rt, record)?;
                continue;
            }
            Ok(None) => None,
            Err(damage) => Some(damage),
        };
        teller.counts.tell(rt, damage);
        return Ok(());
    }
    Ok(())
}

// The version in a word of decimal digits.
fn version_of(word: &[u8]) -> Option<u32> {
    if word.iter().all(|b| b.is_ascii_digit()) {
        str::from_utf8(word).ok()?.parse().ok()
    } else {
        None
    }
}

fn main(rt: HostRuntime) -> io::Result<()> {
    let mut word = [0u8; 64];
    let n = match rt.arg(1, &mut word) {
        Ok(n) => n,
        Err(FillError::NotPresent) => return tell_all(&rt, rt.stdin(), 2),
        // A word that is longer than the buffer is told as an empty one.
        Err(FillError::TooLong) => 0,
    };
    let word = &word[..n];
    if let Some(version) = version_of(word) {
        return tell_all(&rt, rt.stdin(), version);
    }
    let word = Text(word);
    let _ = println!(rt;
        "{word} is not a version; usage: describe [VERSION] < TRACE, with VERSION in decimal digits, 2 if left out"
    );
    Ok(())
}
