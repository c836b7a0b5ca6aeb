// Gives messages to sessions with a keeper. A line `K 2 100` starts a session of version 2 with a keeper whose buffer has 100 bytes, each
// EE, of which none is held. A line
//
//   k 200 bytes = number offset: tag identity columns
//
// gives it a message, tagged with how many it was given before, with an output of 200 bytes, each AA. Behind that a line `h bytes` says
// which bytes are held, and that the rest of the buffer is as it was before the message; a line `o bytes` says which were released, and
// that the rest of the output is still AA. A line `H bytes` puts bytes at the start of the buffer, and they are what is held.
use crate::answers::Hex;
use crate::text::{self, Bytes, Text};
use crate::{Tally, sessions};
use keeper::{KeeperStep, Reply};
use session::{Answer, Session};

// A buffer and an output have no more bytes than this.
const ROOM: usize = 1024;

const UNHELD: u8 = 0xEE;

const UNRELEASED: u8 = 0xAA;

// A session with a keeper: its buffer now, and as it was before the last message; how many of its bytes are lent, and how many are held.
// Then the last output, and how many bytes were released to it. The keeper is lent such arrays and told or tells how many bytes are in use.
#[derive(Clone, Copy)]
struct Running {
    session: Session,
    given: u64,
    buffer: [u8; ROOM],
    before: [u8; ROOM],
    room: usize,
    held: usize,
    out: [u8; ROOM],
    released: usize,
}

// The length of a buffer or an output.
fn size(text: &mut Text) -> Option<usize> {
    text.decimal()
        .filter(|size| *size <= ROOM as u64)
        .map(|size| size as usize)
}

// The first bytes of a buffer or an output.
pub fn part(bytes: &mut [u8], size: usize) -> &mut [u8] {
    let size = size.min(bytes.len());
    &mut bytes[..size]
}

// Whether the bytes in use of an array are these, and the rest is that of another.
fn is_laid(bytes: &[u8], used: usize, all: &[u8], other: &[u8]) -> bool {
    let size = bytes.len();
    used == size && all.starts_with(bytes) && text::back(all, size) == text::back(other, size)
}

impl Running {
    // With nothing held, and no message given yet.
    fn start(session: Session, room: usize) -> Running {
        Running {
            session,
            given: 0,
            buffer: [UNHELD; ROOM],
            before: [UNHELD; ROOM],
            room,
            held: 0,
            out: [UNRELEASED; ROOM],
            released: 0,
        }
    }

    fn start_line(&mut self, line: &[u8]) -> Option<()> {
        let mut text = Text::behind_first(line);
        let session = sessions::fresh(&mut text);
        *self = Running::start(session, size(&mut text)?);
        Some(())
    }

    // With an output of so many bytes.
    fn give(&mut self, bytes: &[u8], size: usize) -> Answer {
        self.before = self.buffer;
        self.out = [UNRELEASED; ROOM];
        let KeeperStep {
            session,
            reply: Reply { answer, released },
            held,
        } = keeper::step(
            self.session,
            bytes,
            self.given,
            part(&mut self.buffer, self.room),
            self.held,
            part(&mut self.out, size),
        );
        self.session = session;
        self.given = self.given.wrapping_add(1);
        self.held = held;
        self.released = released;
        answer
    }

    fn give_line(
        &mut self,
        rt: &impl Print,
        tally: &mut Tally,
        line: &[u8],
        message: &mut Bytes,
    ) -> Option<()> {
        let mut text = Text::behind_first(line);
        let size = size(&mut text);
        text.hex(b'=', message)?;
        text.skip(1);
        let said = self.give(message.as_slice(), size?);
        tally.count(sessions::is_said(rt, said, line, text.rest));
        Some(())
    }

    fn put_line(&mut self, line: &[u8], message: &mut Bytes) -> Option<()> {
        Text::behind_first(line).hex(b'\n', message)?;
        let bytes = message.as_slice();
        // They leave room in the buffer for one more.
        if ROOM <= bytes.len() {
            return None;
        }
        self.buffer[..bytes.len()].copy_from_slice(bytes);
        self.before = self.buffer;
        self.held = bytes.len();
        Some(())
    }

    fn see_line(
        &self,
        rt: &impl Print,
        tally: &mut Tally,
        line: &[u8],
        message: &mut Bytes,
    ) -> Option<()> {
        Text::behind_first(line).hex(b'\n', message)?;
        let bytes = message.as_slice();
        let unreleased = [UNRELEASED; ROOM];
        let (used, all, other) = if line.starts_with(b"h") {
            (self.held, &self.buffer, &self.before)
        } else {
            (self.released, &self.out, &unreleased)
        };
        let is_good = is_laid(bytes, used, all, other);
        if !is_good {
            let used = Hex(text::front(all, used));
            let _ = print!(rt; "  keeper {used} to ");
            crate::print(rt, line);
        }
        tally.count(is_good);
        Some(())
    }

    fn run_line(&mut self, rt: &impl Print, tally: &mut Tally, line: &[u8], message: &mut Bytes) {
        let done = match text::byte_at(line, 0) {
            b'K' => self.start_line(line),
            b'k' => self.give_line(rt, tally, line, message),
            b'H' => self.put_line(line, message),
            b'h' | b'o' => self.see_line(rt, tally, line, message),
            _ => Some(()),
        };
        if done.is_none() {
            crate::print(rt, b"  not a case: ");
            crate::print(rt, line);
            tally.count(false);
        }
    }
}

// The lines of a group that concern a session with a keeper.
pub fn run_lines(rt: &impl Print, tally: &mut Tally, lines: &[u8], message: &mut Bytes) {
    let mut run = Running::start(session::start_default(), 0);
    for line in lines.split_inclusive(text::is_line_end) {
        run.run_line(rt, tally, line, message);
    }
}
