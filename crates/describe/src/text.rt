// Parts of a message and of an answer as they are shown.
ghost use Rattle.std.specs.Prelude.{◌≡◌, take};

use std::{fmt, str};

// How many bytes of a value are shown.
const SHOWN: usize = 64;

// Each takes at most four.
const LONGEST: usize = 4 * SHOWN;

const DIGITS: [u8; 16] = *b"0123456789abcdef";

// Room for what the bytes of a value are shown as. It is laid here first and written in one, since a write of each byte takes longer.
type Room = [u8; LONGEST];

// A text in quotes.
#[derive(Clone, Copy)]
pub struct Text<'a>(pub &'a [u8]);

// Bytes in hex.
#[derive(Clone, Copy)]
pub struct Hex<'a>(pub &'a [u8]);

// An LSN as the server prints it.
#[derive(Clone, Copy)]
pub struct Lsn(pub u64);

// So many of something; the noun is in the singular.
#[derive(Clone, Copy)]
pub struct Count<'a>(pub u64, pub &'a str);

// What an announcement says of its columns.
#[derive(Clone, Copy)]
pub struct Shape {
    pub identity: u8,
    pub columns: u16,
}

// That bytes of so many are left out, where there are more than are shown.
#[derive(Clone, Copy)]
struct LeftOut(usize);

// The first `end` bytes, or all where there are no more.
fn front(bytes: &[u8], end: usize) -> &[u8]
    ensures { result.now ≡ take end bytes.now }
{
    bytes.get(..end).unwrap_or(bytes)
}

// Lays bytes in the room, and gives where it goes on. Where they don't fit, none is laid.
fn lay<const N: usize>(room: &mut Room, at: usize, bytes: [u8; N]) -> usize {
    match room.get_mut(at..at.saturating_add(N)) {
        Some(place) => {
            place.copy_from_slice(&bytes);
            at + N
        }
        None => at,
    }
}

fn digits_of(b: u8) -> [u8; 2] {
    let high = DIGITS[usize::from(b >> 4)];
    let low = DIGITS[usize::from(b & 0xF)];
    [high, low]
}

// Whether a byte stands in a quoted text as it is.
fn is_plain(b: u8) -> bool {
    matches!(b, b' '..=b'~') && b != b'"' && b != b'\\'
}

// The plain bytes at the start, and the rest.
fn plain_front(text: &[u8]) -> (&[u8], &[u8]) {
    let end = text.iter().position(|b| !is_plain(*b));
    match end.and_then(|end| text.split_at_checked(end)) {
        Some(parts) => parts,
        None => (text, &[]),
    }
}

// A byte in a quoted text.
fn lay_escaped(room: &mut Room, at: usize, b: u8) -> usize {
    match b {
        b'"' | b'\\' => lay(room, at, [b'\\', b]),
        b' '..=b'~' => lay(room, at, [b]),
        _ => {
            let [high, low] = digits_of(b);
            lay(room, at, [b'\\', b'x', high, low])
        }
    }
}

fn write_ascii<W: fmt::Write>(f: &mut fmt::Formatter<W>, bytes: &[u8]) -> fmt::Result {
    match str::from_utf8(bytes) {
        Ok(text) => f.write_str(text),
        Err(_) => Err(fmt::Error),
    }
}

// What was laid up to an offset.
fn write_laid<W: fmt::Write>(f: &mut fmt::Formatter<W>, room: &Room, end: usize) -> fmt::Result {
    write_ascii(f, front(room, end))
}

// A part of a quoted text.
fn write_escaped<W: fmt::Write>(f: &mut fmt::Formatter<W>, text: &[u8]) -> fmt::Result {
    let mut room = [0; LONGEST];
    let mut end = 0;
    for b in text {
        end = lay_escaped(&mut room, end, *b);
    }
    write_laid(f, &room, end)
}

impl fmt::Display for LeftOut {
    fn fmt<W: fmt::Write>(&self, f: &mut fmt::Formatter<W>) -> fmt::Result {
        let count = self.0;
        if count <= SHOWN {
            return Ok(());
        }
        write!(f, "... ({count} bytes)")
    }
}

impl fmt::Display for Text<'_> {
    fn fmt<W: fmt::Write>(&self, f: &mut fmt::Formatter<W>) -> fmt::Result {
        let (plain, rest) = plain_front(front(self.0, SHOWN));
        write!(f, "\"")?;
        write_ascii(f, plain)?;
        if !rest.is_empty() {
            write_escaped(f, rest)?;
        }
        write!(f, "\"{}", LeftOut(self.0.len()))
    }
}

impl fmt::Display for Hex<'_> {
    fn fmt<W: fmt::Write>(&self, f: &mut fmt::Formatter<W>) -> fmt::Result {
        let mut room = [0; LONGEST];
        let mut end = 0;
        for b in front(self.0, SHOWN) {
            end = lay(&mut room, end, digits_of(*b));
        }
        write!(f, "0x")?;
        write_laid(f, &room, end)?;
        write!(f, "{}", LeftOut(self.0.len()))
    }
}

impl fmt::Display for Lsn {
    fn fmt<W: fmt::Write>(&self, f: &mut fmt::Formatter<W>) -> fmt::Result {
        write!(f, "{:X}/{:X}", self.0 >> 32, self.0 & 0xFFFF_FFFF)
    }
}

impl fmt::Display for Count<'_> {
    fn fmt<W: fmt::Write>(&self, f: &mut fmt::Formatter<W>) -> fmt::Result {
        let Count(count, noun) = *self;
        let plural = if count == 1 { "" } else { "s" };
        write!(f, "{count} {noun}{plural}")
    }
}

impl fmt::Display for Shape {
    fn fmt<W: fmt::Write>(&self, f: &mut fmt::Formatter<W>) -> fmt::Result {
        let Shape { identity, columns } = *self;
        let letter = char::from(identity);
        let count = Count(u64::from(columns), "column");
        write!(f, "identity {letter}, {count}")
    }
}
