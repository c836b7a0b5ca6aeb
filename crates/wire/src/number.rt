// The numbers that a field may hold, over their type.
ghost use Rattle.std.specs.Prelude.{◌≡◌, ℕ, ◌+◌, ◌≤◌, ◌^◌, cond, length, ltb, nat_le};
ghost use Rattle.std.proofs.Common.{rules};
ghost use Rattle.wire.specs.Numbers.{word_at};

use std::convert::TryFrom;

// Whether so many bytes are there.
#[inline(always)]
fn are_there(s: &[u8], at: usize, width: usize) -> bool
    ensures { result ≡ nat_le (at + width) (length s.now) }
{
    at <= s.len() && width <= s.len() - at
}

// An unsigned number of one, two, four or eight bytes.
pub trait Number: Copy {
    ghost WIDTH: { ℕ };

    ghost value: { Self → ℕ };

    ghost of: { ℕ → Self };

    // How many bytes it has.
    const WIDTH: usize;

    // The big-endian number at a place, in 64 bits, where its bytes are there.
    fn at(s: &[u8], at: usize) -> Option<u64>
        ensures { result ≡ word_at WIDTH s.now at };

    fn wide(self) -> u64
        ensures { result ≡ value self };

    // A number in this type, and `most` where it does not fit. What is no more than `most` fits.
    fn narrow(n: u64, most: Self) -> Self
        ensures whole { result ≡ cond (ltb n (256 ^ WIDTH)) (of n) most }
        ensures fits { n ≤ value most → result ≡ of n };

    // A number that fits, else 0.
    fn fitting(n: u64) -> Self
        ensures { result ≡ of (cond (ltb n (256 ^ WIDTH)) n 0) };

    ghost few: { WIDTH ≤ 8 };
}

impl Number for u8 {
    ghost WIDTH = { 1 };

    ghost value = { λ n. n };

    ghost of = { λ n. n };

    const WIDTH: usize = 1;

    #[inline(always)]
    #[tactic(auto, unfolding(crate::specs::Numbers::word_at, crate::specs::Numbers::be))]
    fn at(s: &[u8], at: usize) -> Option<u64> {
        if !are_there(s, at, 1) {
            return None;
        }
        Some(u64::from(s[at]))
    }

    fn wide(self) -> u64 {
        u64::from(self)
    }

    fn narrow(n: u64, most: u8) -> u8 {
        u8::try_from(n).unwrap_or(most)
    }

    fn fitting(n: u64) -> u8 {
        u8::try_from(n).unwrap_or(0)
    }

    ghost few = { Prim.search rules };
}

impl Number for u16 {
    ghost WIDTH = { 2 };

    ghost value = { λ n. n };

    ghost of = { λ n. n };

    const WIDTH: usize = 2;

    #[inline(always)]
    #[tactic(auto, unfolding(crate::specs::Numbers::word_at, crate::specs::Numbers::be))]
    fn at(s: &[u8], at: usize) -> Option<u64> {
        if !are_there(s, at, 2) {
            return None;
        }
        Some(u64::from(u16::from_be_bytes([s[at], s[at + 1]])))
    }

    fn wide(self) -> u64 {
        u64::from(self)
    }

    fn narrow(n: u64, most: u16) -> u16 {
        u16::try_from(n).unwrap_or(most)
    }

    fn fitting(n: u64) -> u16 {
        u16::try_from(n).unwrap_or(0)
    }

    ghost few = { Prim.search rules };
}

impl Number for u32 {
    ghost WIDTH = { 4 };

    ghost value = { λ n. n };

    ghost of = { λ n. n };

    const WIDTH: usize = 4;

    #[inline(always)]
    #[tactic(auto, unfolding(crate::specs::Numbers::word_at, crate::specs::Numbers::be))]
    fn at(s: &[u8], at: usize) -> Option<u64> {
        if !are_there(s, at, 4) {
            return None;
        }
        Some(u64::from(u32::from_be_bytes([s[at], s[at + 1], s[at + 2], s[at + 3]])))
    }

    fn wide(self) -> u64 {
        u64::from(self)
    }

    fn narrow(n: u64, most: u32) -> u32 {
        u32::try_from(n).unwrap_or(most)
    }

    fn fitting(n: u64) -> u32 {
        u32::try_from(n).unwrap_or(0)
    }

    ghost few = { Prim.search rules };
}

impl Number for u64 {
    ghost WIDTH = { 8 };

    ghost value = { λ n. n };

    ghost of = { λ n. n };

    const WIDTH: usize = 8;

    #[inline(always)]
    #[tactic(auto, unfolding(crate::specs::Numbers::word_at, crate::specs::Numbers::be))]
    fn at(s: &[u8], at: usize) -> Option<u64> {
        if !are_there(s, at, 8) {
            return None;
        }
        Some(u64::from_be_bytes([
            s[at],
            s[at + 1],
            s[at + 2],
            s[at + 3],
            s[at + 4],
            s[at + 5],
            s[at + 6],
            s[at + 7],
        ]))
    }

    fn wide(self) -> u64 {
        self
    }

    fn narrow(n: u64, _most: u64) -> u64 {
        n
    }

    fn fitting(n: u64) -> u64 {
        n
    }

    ghost few = { Prim.search rules };
}

impl Number for usize {
    ghost WIDTH = { 8 };

    ghost value = { λ n. n };

    ghost of = { λ n. n };

    const WIDTH: usize = 8;

    #[inline(always)]
    #[tactic(auto, unfolding(crate::specs::Numbers::word_at, crate::specs::Numbers::be))]
    fn at(s: &[u8], at: usize) -> Option<u64> {
        u64::at(s, at)
    }

    fn wide(self) -> u64 {
        self as u64
    }

    fn narrow(n: u64, _most: usize) -> usize {
        n as usize
    }

    fn fitting(n: u64) -> usize {
        n as usize
    }

    ghost few = { Prim.search rules };
}
