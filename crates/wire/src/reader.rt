// A reader of fields, one after another.
ghost use Rattle.std.specs.Prelude.{◌≡◌, ◌≤◌};
ghost use Rattle.wire.specs.Fields.{member, number_field, letter_field, text_field, bytes_field, value_field, in_type, position_of};
ghost use Rattle.wire.specs.Readers.{Reads, refuses};
ghost use Rattle.wire.specs.ValueEnd.{value_end};

use crate::{Cursor, Number, Refusal, Span, zeros};

// The bytes of a message, and where reading stands in them. A reader that has refused stays as it is.
#[derive(Drop)]
pub struct Reader<'a> {
    pub bytes: &'a [u8],
    pub next: Cursor,
}

// Whether a byte is among those of a set, one byte at a time. A call of std's `contains`, which goes by groups, takes longer than the rest
// of a letter.
#[inline(always)]
#[tactic(auto, using(crate::proofs::Fields::member_here, crate::proofs::Fields::member_next, crate::proofs::Fields::member_end))]
pub fn contains(set: &[u8], b: u8) -> bool
    ensures { result ≡ member set.now b }
{
    for letter in set {
        if *letter == b {
            return true;
        }
    }
    false
}

impl<'a> Reader<'a> {
    // A reader that stands at an offset of the bytes.
    #[inline(always)]
    pub fn at(bytes: &'a [u8], offset: usize) -> Reader<'a>
        ensures { (result.bytes ≡ bytes.entry) × (result.next ≡ Ok offset) }
    {
        Reader {
            bytes,
            next: Ok(offset),
        }
    }

    // Where it stands, and 0 where it has refused.
    #[inline(always)]
    pub fn offset(&self) -> usize
        ensures { result ≡ position_of self.now.next }
    {
        self.next.unwrap_or(0)
    }

    // Refuses at an offset, and stays so.
    #[inline(always)]
    fn refuse<T>(&mut self, number: u8, offset: usize) -> Result<T, Refusal>
        ensures { refuses number offset self.old result self.new }
    {
        let refusal = Refusal { number, offset };
        self.next = Err(refusal);
        Err(refusal)
    }

    // A number from `low` to `high`, else `refusal`.
    #[inline(always)]
    #[tactic(auto, unfolding(crate::specs::Fields::number_field, crate::specs::Numbers::word_at))]
    pub fn number<N: Number>(&mut self, low: N, high: N, refusal: u8) -> Result<N, Refusal>
        ensures { Reads (in_type N.of (number_field N.WIDTH (N.value low) (N.value high) refusal self.old.bytes.now self.old.next)) self.old result self.new }
    {
        let at = self.next?;
        let Some(v) = N::at(self.bytes, at) else {
            return self.refuse(Refusal::SHORT, at);
        };
        if v < low.wide() || high.wide() < v {
            return self.refuse(refusal, at);
        }
        self.next = Ok(at + N::WIDTH);
        Ok(N::narrow(v, high))
    }

    // One of the letters of a set.
    #[inline(always)]
    #[tactic(auto, unfolding(crate::specs::Fields::letter_field))]
    pub fn letter(&mut self, set: &[u8]) -> Result<u8, Refusal>
        ensures { Reads (letter_field set.now self.old.bytes.now self.old.next) self.old result self.new }
    {
        let at = self.next?;
        if self.bytes.len() <= at {
            return self.refuse(Refusal::SHORT, at);
        }
        let b = self.bytes[at];
        if !contains(set, b) {
            return self.refuse(Refusal::FIELD, at);
        }
        self.next = Ok(at + 1);
        Ok(b)
    }

    // A text and its zero byte. The span leaves the zero byte out.
    #[inline(always)]
    #[tactic(auto, using(crate::proofs::Fields::text_there, crate::proofs::Fields::text_short), unfolding(crate::specs::Fields::text_field))]
    pub fn text(&mut self) -> Result<Span, Refusal>
        ensures { Reads (text_field self.old.bytes.now self.old.next) self.old result self.new }
    {
        let start = self.next?;
        let end = zeros::zero_from(self.bytes, start);
        if self.bytes.len() <= end {
            return self.refuse(Refusal::SHORT, start);
        }
        self.next = Ok(end + 1);
        Ok(Span {
            start,
            length: end - start,
        })
    }

    // `n` bytes.
    #[inline(always)]
    #[tactic(auto, unfolding(crate::specs::Fields::bytes_field))]
    pub fn bytes(&mut self, n: usize) -> Result<Span, Refusal>
        ensures { Reads (bytes_field n self.old.bytes.now self.old.next) self.old result self.new }
    {
        let start = self.next?;
        if self.bytes.len() < start || self.bytes.len() - start < n {
            return self.refuse(Refusal::SHORT, start);
        }
        self.next = Ok(start + n);
        Ok(Span { start, length: n })
    }

    // A signed length of 32 bits, and that many bytes.
    #[inline(always)]
    #[tactic(auto, unfolding(crate::specs::Fields::value_field, crate::specs::Fields::bytes_field))]
    pub fn value(&mut self) -> Result<Span, Refusal>
        ensures { Reads (value_field self.old.bytes.now self.old.next) self.old result self.new }
    {
        let length = self.number::<u32>(0, 0x7FFF_FFFF, Refusal::FIELD)?;
        self.bytes(length as usize)
    }
}

// Where a length and its bytes end, with the length taken as unsigned, where they are there.
#[tactic(auto, unfolding(crate::specs::Numbers::word_at, crate::specs::ValueEnd::value_end))]
pub fn value_end(s: &[u8], at: usize) -> Option<usize>
    ensures { result ≡ value_end s.now at }
{
    let n = u32::at(s, at)? as usize;
    let start = at + 4;
    if n <= s.len() - start {
        Some(start + n)
    } else {
        None
    }
}
