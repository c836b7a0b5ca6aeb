// Writes messages that were read back from their own bytes, and messages that are made up.
use crate::answers::Place;
use crate::text::{self, Bytes, Text};
use crate::varied::VERSIONS;
use crate::{Tally, made};
use message::{Message, Version};
use second_reader::Reason;
use wire::Refusal;

pub const GUARD: u8 = 0xA5;

// Rooms that are tried at each end of the shorter ones.
const ROOMS: usize = 64;

// The refusal of an output that is too short.
pub const OUTPUT: Refusal = Refusal {
    number: Refusal::OUTPUT,
    offset: 0,
};

// No refusal of the writer's: there is no such room to write into.
const NO_ROOM: Refusal = Refusal {
    number: 100,
    offset: 0,
};

// Writes into the first `room` bytes of the output.
fn write(
    place: Place,
    m: Message,
    source: &[u8],
    out: &mut [u8],
    room: usize,
) -> Result<usize, Refusal> {
    let part = out.get_mut(..room).ok_or(NO_ROOM)?;
    let version = Version {
        number: place.version,
    };
    writer::write_message(version, place.in_block, m, source, part)
}

// Looks at every byte, since that takes less time than to stop at the first that differs.
pub fn is_untouched(out: &[u8]) -> bool {
    out.iter().fold(true, |is_same, b| is_same & (*b == GUARD))
}

// Whether writing into a room gives this answer, and changes no byte where it is a refusal.
fn is_answered(
    place: Place,
    m: Message,
    source: &[u8],
    room: usize,
    want: Result<usize, Refusal>,
) -> bool {
    let mut out = [GUARD; 16384];
    let answer = write(place, m, source, &mut out, room);
    answer == want && is_untouched(text::back(&out, answer.unwrap_or(0)))
}

// Whether a message is written as its bytes, and no other byte is changed.
fn is_written(place: Place, m: Message, bytes: &[u8], spare: usize) -> bool {
    let mut out = [GUARD; 16384];
    let size = bytes.len();
    write(place, m, bytes, &mut out, size.wrapping_add(spare)) == Ok(size)
        && out.starts_with(bytes)
        && is_untouched(text::back(&out, size))
}

// Into just enough room, and into more.
pub fn is_written_back(place: Place, m: Message, bytes: &[u8]) -> bool {
    is_written(place, m, bytes, 0) && is_written(place, m, bytes, 9)
}

// Into less room: each, or of many those at both ends.
pub fn is_refused_in_less(place: Place, m: Message, bytes: &[u8]) -> bool {
    let size = bytes.len();
    for k in 0..size.min(ROOMS) {
        if !is_answered(place, m, bytes, k, Err(OUTPUT))
            || !is_answered(place, m, bytes, size - 1 - k, Err(OUTPUT))
        {
            return false;
        }
    }
    true
}

fn has_xid(letter: u8) -> bool {
    b"RYIUDTM".contains(&letter)
}

fn is_streaming(letter: u8) -> bool {
    b"SEcA".contains(&letter)
}

fn refused(reason: Reason, offset: usize) -> Result<usize, Refusal> {
    Err(Refusal {
        number: reason.number(),
        offset,
    })
}

// What a message gives at a version and place, of which it was read at another place.
fn wanted(place: Place, was_in_block: bool, bytes: &[u8]) -> Result<usize, Refusal> {
    let letter = text::byte_at(bytes, 0);
    match place.version {
        1 if place.in_block => refused(Reason::Version, 0),
        1 if is_streaming(letter) => refused(Reason::Kind, 0),
        1 | 2 if has_xid(letter) && place.in_block != was_in_block => refused(Reason::Field, 1),
        1 | 2 => Ok(bytes.len()),
        _ => refused(Reason::Version, 0),
    }
}

fn is_wanted(place: Place, was_in_block: bool, m: Message, bytes: &[u8]) -> bool {
    let want = wanted(place, was_in_block, bytes);
    is_answered(place, m, bytes, bytes.len(), want)
}

pub fn is_written_at_every_version(was: Place, m: Message, bytes: &[u8]) -> bool {
    let is_right = |version, in_block| {
        is_wanted(Place { version, in_block }, was.in_block, m, bytes)
    };
    VERSIONS.iter().all(|version| is_right(*version, false) && is_right(*version, true))
}

// Whether a made-up message gives its answer: `number offset: letter room numbers`.
fn is_made(place: Place, source: &[u8], answer: &[u8]) -> bool {
    let mut text = Text::new(answer);
    let (Some(number), Some(offset)) = (text.decimal(), text.decimal()) else {
        return false;
    };
    let want = match (number & 0xFF) as u8 {
        0 => Ok(offset as usize),
        number => Err(Refusal {
            number,
            offset: offset as usize,
        }),
    };
    text.skip(1);
    text.skip_spaces();
    let letter = text.peek();
    text.skip(1);
    let room = text.number() as usize;
    is_answered(place, made::message(letter, text), source, room, want)
}

// Writes the made-up message of a line.
pub fn run_made(rt: &impl Print, tally: &mut Tally, line: &[u8], message: &mut Bytes) {
    let case = Text::behind_first(line).case(message);
    let is_good = case.is_some_and(|case| is_made(case.place, message.as_slice(), case.answer));
    if !is_good {
        crate::print(rt, b"  ");
        crate::print(rt, line);
    }
    tally.count(is_good);
}
