// Gives messages to sessions. A line `> 2` starts a session of version 2, and `> -` one with no version named. A line
//
//   + bytes = number offset: tag identity columns
//
// gives it a message, tagged with how many it was given before; the tag, identity and columns are those of a change's announcement.
// With `+ 200 @ 4` the message is given 200 times, and its byte at 4 is one more each time.
use crate::Tally;
use crate::answers::Told;
use crate::text::{self, Bytes, Text};
use second_reader::Values;
use session::{Answer, Session, Stepped};

// A session, and how many messages it was given.
#[derive(Clone, Copy)]
struct Running {
    session: Session,
    given: u64,
}

fn told(answer: Answer) -> Told {
    match answer {
        Ok(None) => Told {
            number: 0,
            offset: 0,
            values: Values::new(),
        },
        Ok(Some(seen)) => Told {
            number: 0,
            offset: 0,
            values: Values::of(&[seen.tag, u64::from(seen.identity), u64::from(seen.columns)]),
        },
        Err(refusal) => Told::from(refusal),
    }
}

// Whether an answer is the one that stands in a line.
pub fn is_said(rt: &impl Print, said: Answer, line: &[u8], answer: &[u8]) -> bool {
    let told = told(said);
    let is_agreed = told.is_said(answer);
    if !is_agreed {
        let _ = print!(rt; "  session {told} to ");
        crate::print(rt, line);
    }
    is_agreed
}

// How often a message is given, and the offset of the byte that counts.
#[derive(Clone, Copy)]
struct Repetition {
    count: u64,
    at: usize,
}

impl Repetition {
    // What stands in front of a message's bytes, if anything does.
    fn read(text: &mut Text) -> Repetition {
        let mut front = *text;
        let count = front.number();
        front.skip_spaces();
        if front.peek() != b'@' {
            return Repetition { count: 1, at: 0 };
        }
        front.skip(1);
        let at = front.number() as usize;
        *text = front;
        Repetition { count, at }
    }
}

// A session of the version that is named next, if one is.
pub fn fresh(text: &mut Text) -> Session {
    match text.decimal() {
        Some(version) => session::start((version & 0xFFFF_FFFF) as u32),
        None => session::start_default(),
    }
}

impl Running {
    fn give(&mut self, bytes: &[u8]) -> Answer {
        let Stepped { session, answer } = session::step(self.session, bytes, self.given);
        self.session = session;
        self.given = self.given.wrapping_add(1);
        answer
    }

    fn give_line(&mut self, rt: &impl Print, tally: &mut Tally, line: &[u8], message: &mut Bytes) {
        let mut text = Text::behind_first(line);
        let Repetition { count, at } = Repetition::read(&mut text);
        if text.hex(b'=', message).is_none() {
            crate::print(rt, b"  not a message: ");
            crate::print(rt, line);
        }
        text.skip(1);
        for _ in 0..count {
            let said = self.give(message.as_slice());
            tally.count(is_said(rt, said, line, text.rest));
            if let Some(counted) = message.get_mut(at) {
                *counted = counted.wrapping_add(1);
            }
        }
    }

    fn run_line(&mut self, rt: &impl Print, tally: &mut Tally, line: &[u8], message: &mut Bytes) {
        match text::byte_at(line, 0) {
            b'>' => {
                *self = Running {
                    session: fresh(&mut Text::behind_first(line)),
                    given: 0,
                }
            }
            b'+' => self.give_line(rt, tally, line, message),
            _ => {}
        }
    }
}

// The lines of a group that concern a session.
pub fn run_lines(rt: &impl Print, tally: &mut Tally, lines: &[u8], message: &mut Bytes) {
    let mut run = Running {
        session: session::start_default(),
        given: 0,
    };
    for line in lines.split_inclusive(text::is_line_end) {
        run.run_line(rt, tally, line, message);
    }
}
