// Answers of both readers in one form, and as the cases write them: `number offset: values`.

use crate::text::Text;
use second_reader::{Refused, Seen, Values};
use std::fmt;
use wire::Refusal;

// A version, and whether a message is given inside a stream block.
#[derive(Clone, Copy)]
pub struct Place {
    pub version: u32,
    pub in_block: bool,
}

pub type Answer = Result<Seen, Refusal>;

// An answer in a case: a refusal's number and offset, or 0 and an offset, and the numbers behind them.
#[derive(Clone, Copy)]
pub struct Told {
    pub number: u8,
    pub offset: usize,
    pub values: Values,
}

// Bytes in hex.
#[derive(Clone, Copy)]
pub struct Hex<'a>(pub &'a [u8]);

impl fmt::Display for Place {
    fn fmt<W: fmt::Write>(&self, f: &mut fmt::Formatter<W>) -> fmt::Result {
        let version = self.version;
        let place = if self.in_block { "b" } else { "-" };
        write!(f, "{version} {place}")
    }
}

impl fmt::Display for Hex<'_> {
    fn fmt<W: fmt::Write>(&self, f: &mut fmt::Formatter<W>) -> fmt::Result {
        for b in self.0 {
            write!(f, "{b:02x}")?;
        }
        Ok(())
    }
}

impl fmt::Display for Told {
    fn fmt<W: fmt::Write>(&self, f: &mut fmt::Formatter<W>) -> fmt::Result {
        let Told { number, offset, .. } = *self;
        write!(f, "{number} {offset}:")?;
        for value in self.values.as_slice() {
            write!(f, " {value}")?;
        }
        Ok(())
    }
}

// What the second reader refuses with, as a refusal of the reader.
pub fn refusal(refused: Refused) -> Refusal {
    Refusal {
        number: refused.reason.number(),
        offset: refused.offset,
    }
}

impl From<Refusal> for Told {
    fn from(refusal: Refusal) -> Self {
        Told {
            number: refusal.number,
            offset: refusal.offset,
            values: Values::new(),
        }
    }
}

// The letter is left out.
impl From<Answer> for Told {
    fn from(answer: Answer) -> Self {
        match answer {
            Ok(seen) => Told {
                number: 0,
                offset: seen.length,
                values: Values::of(seen.values.as_slice().get(1..).unwrap_or(&[])),
            },
            Err(refusal) => Told::from(refusal),
        }
    }
}

impl Told {
    // Whether this is the answer that a case says. An empty one stands for any.
    pub fn is_said(&self, answer: &[u8]) -> bool {
        if answer.is_empty() {
            return true;
        }
        let mut text = Text::new(answer);
        let number = text.decimal();
        let offset = text.decimal();
        if number != Some(u64::from(self.number)) || offset != Some(self.offset as u64) {
            return false;
        }
        text.skip_spaces();
        match text.peek() {
            b'\n' => true,
            b':' => {
                text.skip(1);
                self.has_values(text)
            }
            _ => false,
        }
    }

    fn has_values(&self, mut text: Text) -> bool {
        for value in self.values.as_slice() {
            if text.decimal() != Some(*value) {
                return false;
            }
        }
        text.skip_spaces();
        text.peek() == b'\n'
    }
}
