// The cases as text. A group starts with a line `# name`. A case is a line
//
//   version place bytes = number offset: values
//
// where the place is `-` outside a stream block and `b` inside. The bytes are in hex, and `6E*1600` is a byte 1,600 times.
// The number is the refusal's and the offset its offset, or 0 and the message's length. The values, which may be left
// out with their colon, are the message's numbers. A `~` in front says that the message is also varied. Other lines are
// empty or start with `/`.

ghost use Rattle.std.specs.Prelude.{◌≡◌, ◌<◌, ◌≤◌, length, take, drop, slice_index, IfSome, OnSome};
ghost use Rattle.examples.specs.Places.{Onward, Beyond};

use crate::answers::Place;
use arrayvec::ArrayVec;

// The bytes of a case, of which there are fewer than fit.
pub type Bytes = ArrayVec<u8, 65536>;

// What is left of a text.
#[derive(Clone, Copy)]
pub struct Text<'a> {
    pub rest: &'a [u8],
}

// What a case says beside its bytes.
#[derive(Clone, Copy)]
pub struct Case<'a> {
    pub place: Place,
    pub answer: &'a [u8],
}

// The byte at an offset, and a line end past the last.
pub fn byte_at(bytes: &[u8], at: usize) -> u8
    ensures value { at < length bytes.now → result ≡ slice_index bytes.now at }
    ensures value_2 { length bytes.now ≤ at → result ≡ 10 }
{
    bytes.get(at).copied().unwrap_or(b'\n')
}

// Up to an end that may lie past the last byte.
pub fn front(bytes: &[u8], end: usize) -> &[u8]
    ensures { result.now ≡ take end bytes.now }
{
    if end < bytes.len() {
        &bytes[..end]
    } else {
        bytes
    }
}

// From a start that may lie past the last byte.
pub fn back(bytes: &[u8], start: usize) -> &[u8]
    ensures { result.now ≡ drop start bytes.now }
{
    if start < bytes.len() {
        &bytes[start..]
    } else {
        &bytes[..0]
    }
}

// A line goes up to its end.
pub fn is_line_end(b: &u8) -> bool {
    *b == b'\n'
}

// The name of a group, which stands behind the `# ` of its first line.
pub fn name(group: &[u8]) -> &[u8]
    ensures { length result.now ≤ length group.now }
{
    Text::new(back(group, 2)).up_to(|b| b == b'\n')
}

// The value of a hex digit.
fn hex_digit(b: u8) -> Option<u8>
    ensures { IfSome result (λ digit. digit ≤ 15) }
{
    match b {
        b'0'..=b'9' => Some(b - b'0'),
        b'A'..=b'F' => Some(b - b'A' + 10),
        _ => None,
    }
}

// The last byte until it stands there `times` times, or there is no more room.
fn repeat(message: &mut Bytes, times: u64) {
    let Some(last) = message.as_slice().last().copied() else {
        return;
    };
    for _ in 1..times {
        if message.try_push(last).is_err() {
            return;
        }
    }
}

impl<'a> Text<'a> {
    pub fn new(rest: &'a [u8]) -> Self
        ensures { result.rest.now ≡ rest.now }
    {
        Text { rest }
    }

    // What stands behind the byte that says what a line is.
    pub fn behind_first(line: &'a [u8]) -> Self
        ensures { result.rest.now ≡ drop 1 line.now }
    {
        Text::new(back(line, 1))
    }

    // The next byte, and a line end behind the last.
    pub fn peek(&self) -> u8 {
        byte_at(self.rest, 0)
    }

    pub fn skip(&mut self, count: usize)
        ensures { self.new.rest.now ≡ drop count self.old.rest.now }
    {
        self.rest = back(self.rest, count);
    }

    // The bytes before the first that ends them, or all.
    fn up_to<F: Fn(u8) -> bool>(&mut self, is_end: F) -> &'a [u8]
        requires { F.IsAlwaysCallable is_end }
        ensures within { length result.now ≤ length self.old.rest.now }
        ensures onward { Onward self.old.rest.now self.new.rest.now }
    {
        let all = self.rest;
        let size = all.iter().position(|b| is_end(*b)).unwrap_or(all.len());
        self.skip(size);
        front(all, size)
    }

    pub fn skip_spaces(&mut self)
        ensures { Onward self.old.rest.now self.new.rest.now }
    {
        self.up_to(|b| b != b' ');
    }

    // A group with the lines behind it, up to the next.
    pub fn group(&mut self) -> Option<&'a [u8]>
        ensures { OnSome result (length self.new.rest.now < length self.old.rest.now) }
    {
        let all = self.rest;
        if all.is_empty() {
            return None;
        }
        let next = all.windows(2).position(|pair| pair == b"\n#".as_slice());
        let size = next.map_or(all.len(), |at| at + 1);
        self.skip(size);
        Some(front(all, size))
    }

    // A decimal number, after spaces.
    pub fn decimal(&mut self) -> Option<u64>
        ensures { Onward self.old.rest.now self.new.rest.now }
    {
        self.skip_spaces();
        let digits = self.up_to(|b| !b.is_ascii_digit());
        if digits.is_empty() {
            return None;
        }
        Some(
            digits.iter().fold(0, |value: u64, digit| {
                value
                    .wrapping_mul(10)
                    .wrapping_add(u64::from(digit.wrapping_sub(b'0')))
            }),
        )
    }

    // Such a number, or 0 where there is none.
    pub fn number(&mut self) -> u64
        ensures { Onward self.old.rest.now self.new.rest.now }
    {
        self.decimal().unwrap_or(0)
    }

    // Two hex digits. Where they or room for them are missing, nothing of the text is left.
    fn hex_byte(&mut self, message: &mut Bytes) -> Option<()>
        ensures beyond { Beyond self.old.rest.now self.new.rest.now }
    {
        let all = self.rest;
        self.skip(all.len());
        let [high, low, ..] = all else {
            return None;
        };
        let byte = hex_digit(*high)? * 16 + hex_digit(*low)?;
        message.try_push(byte).ok()?;
        self.rest = back(all, 2);
        Some(())
    }

    // A space, two hex digits, or `*` and how many times the byte before it stands.
    fn hex_piece(&mut self, message: &mut Bytes) -> Option<()>
        ensures { Beyond self.old.rest.now self.new.rest.now }
    {
        match self.peek() {
            b' ' => self.skip(1),
            b'*' => {
                self.skip(1);
                repeat(message, self.decimal()?);
            }
            _ => self.hex_byte(message)?,
        }
        Some(())
    }

    // The bytes up to the one that ends them, as a case's `=`. They leave room in the message for one more.
    pub fn hex(&mut self, end: u8, message: &mut Bytes) -> Option<()>
        ensures { Onward self.old.rest.now self.new.rest.now }
    {
        message.clear();
        while let Some(next) = self.rest.first() {
            if *next == end {
                return if message.is_full() { None } else { Some(()) };
            }
            self.hex_piece(message)?;
        }
        None
    }

    // A case, and its bytes.
    pub fn case(mut self, message: &mut Bytes) -> Option<Case<'a>> {
        let version = u32::try_from(self.decimal()?).ok()?;
        self.skip_spaces();
        let place = self.peek();
        self.skip(1);
        self.hex(b'=', message)?;
        self.skip(1);
        if self.rest.is_empty() || (place != b'-' && place != b'b') {
            return None;
        }
        Some(Case {
            place: Place {
                version,
                in_block: place == b'b',
            },
            answer: self.rest,
        })
    }
}
