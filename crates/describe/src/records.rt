// Reads the records of a trace. A record is the mark C3 4D, a length of 32 bits and a message. One that is longer than the room is
// passed over.
ghost use Rattle.std.specs.Prelude.{◌≤◌, length};

use std::alloc::Global;
use std::io::{BufReader, Read};
use std::{fmt, io};

// The mark and the length before a message.
pub const HEAD: usize = 6;

// The room for a message.
const ROOM: usize = 65_530;

// How much is read from the input at once, and how much is passed over at once.
const BUFFER: usize = 65_536;

const CHUNK: usize = 4_096;

#[derive(Drop)]
pub struct Records<R> {
    input: BufReader<R>,
    room: Vec<u8>,
}

// A record's message, or that it is too long for the room.
#[derive(Clone, Copy)]
pub enum Record<'a> {
    Message(&'a [u8]),
    Long { letter: u8, size: usize },
}

// Why there is no further record though the input goes on.
#[derive(Clone, Copy)]
pub enum Damage {
    BadMark,
    Cut,
}

impl fmt::Display for Damage {
    fn fmt<W: fmt::Write>(&self, f: &mut fmt::Formatter<W>) -> fmt::Result {
        f.write_str(match self {
            Damage::BadMark => "bad mark",
            Damage::Cut => "cut record",
        })
    }
}

// Reads until the room is full or the input ends, and gives how much was read. A failed read is taken for the end of the input.
// A `while`, since std's `read_exact` doesn't say how much it read.
fn read_full(input: &mut impl Read, room: &mut [u8]) -> usize
    ensures { result ≤ length room.old }
{
    let mut n = 0;
    while n < room.len() {
        match input.read(&mut room[n..]).unwrap_or(0) {
            0 => return n,
            got => n += got,
        }
    }
    n
}

// Fills the room.
fn fill(input: &mut impl Read, room: &mut [u8]) -> Result<(), Damage> {
    if read_full(input, room) < room.len() {
        Err(Damage::Cut)
    } else {
        Ok(())
    }
}

impl<R: Read + Drop> Records<R> {
    pub fn new(alloc: Global, input: R) -> io::Result<Records<R>> {
        let input = BufReader::with_capacity(alloc, BUFFER, input)?;
        let room = vec![in alloc; 0; ROOM]?;
        Ok(Records { input, room })
    }

    // The length of the next record's message; none where the input ends.
    fn next_size(&mut self) -> Result<Option<usize>, Damage> {
        let mut head = [0u8; HEAD];
        let n = read_full(&mut self.input, &mut head);
        match &head[..n] {
            [] => Ok(None),
            [0xC3, 0x4D, a, b, c, d] => {
                let size = u32::from_be_bytes([*a, *b, *c, *d]);
                Ok(Some(size as usize))
            }
            [0xC3] | [0xC3, 0x4D, ..] => Err(Damage::Cut),
            _ => Err(Damage::BadMark),
        }
    }

    // Passes over a message that is longer than the room, and gives its letter.
    fn pass_over(&mut self, size: usize) -> Result<u8, Damage> {
        let mut letter = [0u8];
        fill(&mut self.input, &mut letter)?;
        let mut chunk = [0u8; CHUNK];
        for start in (1..size).step_by(CHUNK) {
            let count = size.saturating_sub(start).min(CHUNK);
            fill(&mut self.input, &mut chunk[..count])?;
        }
        Ok(letter[0])
    }

    // The next record; none where the input ends.
    pub fn next_record(&mut self) -> Result<Option<Record<'_>>, Damage> {
        let Some(size) = self.next_size()? else {
            return Ok(None);
        };
        if self.room.len() < size {
            let letter = self.pass_over(size)?;
            return Ok(Some(Record::Long { letter, size }));
        }
        let message = &mut self.room[..size];
        fill(&mut self.input, message)?;
        Ok(Some(Record::Message(message)))
    }
}
