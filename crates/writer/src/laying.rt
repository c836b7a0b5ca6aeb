// Laying the fields of a message one after another, where there is room for them.
ghost use Rattle.std.specs.Prelude.{◌≡◌, [], ◌∷◌, ◌++◌, ◌+◌, ◌≤◌, length};
ghost use Rattle.copying.specs.Copies.{laid_in};
ghost use Rattle.message.specs.Encode.{digits, cut, from_to};
ghost use Rattle.message.specs.Pieces.{xid_bytes};
ghost use Rattle.writer.specs.Store.{Lays, old_bytes};

use crate::judging;
use message::OldTuple;
use wire::{Cursor, Number, Span};

// `n` bytes of the source from `start`, or those that it has, to the front of a slice; and how many. A function of its own, so that a pen,
// whose methods are inlined, stays in registers.
fn lay(tail: &mut [u8], source: &[u8], start: usize, n: usize) -> usize
    ensures { (tail.new ≡ laid_in tail.old (cut source.now start n)) × (result ≡ length (cut source.now start n)) }
{
    let part = judging::cut_of(source, start, n);
    copying::lay_part(tail, part);
    part.len()
}

// An output, and where laying stands in it.
#[derive(Drop)]
pub struct Pen<'a> {
    pub out: &'a mut [u8],
    pub at: usize,
}

impl<'a> Pen<'a> {
    #[inline(always)]
    pub fn byte(&mut self, b: u8)
        requires { self.old.at + 1 ≤ length self.old.out.now }
        ensures same_output { self.new.out.ghost_name ≡ self.old.out.ghost_name }
        ensures laid { Lays (b ∷ []) self.old self.new }
    {
        self.out[self.at] = b;
        self.at += 1;
    }

    // `width` bytes of a number, the most significant first.
    #[inline(always)]
    pub fn digits(&mut self, width: usize, value: u64)
        requires { self.old.at + width ≤ length self.old.out.now }
        ensures same_output { self.new.out.ghost_name ≡ self.old.out.ghost_name }
        ensures laid { Lays (digits width value) self.old self.new }
    {
        copying::lay_number(&mut self.out[self.at..], width, value);
        self.at += width;
    }

    #[inline(always)]
    pub fn number<N: Number>(&mut self, value: N)
        requires { self.old.at + N.WIDTH ≤ length self.old.out.now }
        ensures same_output { self.new.out.ghost_name ≡ self.old.out.ghost_name }
        ensures laid { Lays (digits N.WIDTH (N.value value)) self.old self.new }
    {
        self.digits(N::WIDTH, value.wide());
    }

    // An xid, which stands only inside a stream block.
    #[inline(always)]
    pub fn xid(&mut self, in_block: bool, xid: u32)
        requires { self.old.at + length (xid_bytes in_block xid) ≤ length self.old.out.now }
        ensures same_output { self.new.out.ghost_name ≡ self.old.out.ghost_name }
        ensures laid { Lays (xid_bytes in_block xid) self.old self.new }
    {
        if in_block {
            self.number(xid);
        }
    }

    // Bytes of the source, or those that it has.
    #[inline(always)]
    pub fn part(&mut self, source: &[u8], start: usize, n: usize)
        requires { self.old.at + length (cut source.now start n) ≤ length self.old.out.now }
        ensures same_output { self.new.out.ghost_name ≡ self.old.out.ghost_name }
        ensures laid { Lays (cut source.now start n) self.old self.new }
    {
        self.at += lay(&mut self.out[self.at..], source, start, n);
    }

    // A text of the source, and its zero byte.
    #[inline(always)]
    pub fn text(&mut self, source: &[u8], text: Span)
        requires { self.old.at + length (cut source.now text.start text.length) + 1 ≤ length self.old.out.now }
        ensures same_output { self.new.out.ghost_name ≡ self.old.out.ghost_name }
        ensures laid { Lays (cut source.now text.start text.length ++ (0 ∷ [])) self.old self.new }
    {
        self.part(source, text.start, text.length);
        self.byte(0);
    }

    // What lies in the source in its layout, from `start` to `end`.
    #[inline(always)]
    pub fn section(&mut self, source: &[u8], start: usize, end: Cursor)
        requires { self.old.at + length (from_to source.now start end) ≤ length self.old.out.now }
        ensures same_output { self.new.out.ghost_name ≡ self.old.out.ghost_name }
        ensures laid { Lays (from_to source.now start end) self.old self.new }
    {
        self.part(source, start, end.unwrap_or(0).saturating_sub(start));
    }

    // A letter and a tuple.
    #[inline(always)]
    fn image(&mut self, letter: u8, source: &[u8], start: usize, end: Cursor)
        requires { self.old.at + length (letter ∷ from_to source.now start end) ≤ length self.old.out.now }
        ensures same_output { self.new.out.ghost_name ≡ self.old.out.ghost_name }
        ensures laid { Lays (letter ∷ from_to source.now start end) self.old self.new }
    {
        self.byte(letter);
        self.section(source, start, end);
    }

    // An old tuple's letter and the tuple, or nothing.
    #[inline(always)]
    pub fn old(&mut self, source: &[u8], old: OldTuple, end: Cursor)
        requires { self.old.at + length (old_bytes source.now old end) ≤ length self.old.out.now }
        ensures same_output { self.new.out.ghost_name ≡ self.old.out.ghost_name }
        ensures laid { Lays (old_bytes source.now old end) self.old self.new }
    {
        match old {
            OldTuple::Nothing => {}
            OldTuple::Key(start) => self.image(b'K', source, start, end),
            OldTuple::Full(start) => self.image(b'O', source, start, end),
        }
    }
}
