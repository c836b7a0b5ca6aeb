// Judging a message field by field: how long it would be, or why it is refused; nothing is stored.
ghost use Rattle.std.specs.Prelude.{◌≡◌, ◌+◌, leb, length, Some, Ok};
ghost use Rattle.std.specs.Prelude.{length as bytes_in};
ghost use Rattle.wire.specs.Cursors.{refuse};
ghost use Rattle.wire.specs.Numbers.{most64};
ghost use Rattle.wire.specs.Fields.{in_range, member};
ghost use Rattle.message.specs.Layout.{tuple_end};
ghost use Rattle.message.specs.Encode.{cut};
ghost use Rattle.message.specs.Pieces.{opened, placed, advanced, tested, id_judgement, text_judgement, xid_judgement};
ghost use Rattle.writer.specs.Store.{room_for, old_end, old_advanced};

use message::{Kind, OldTuple, Version};
use wire::{Cursor, Number, Refusal, Span};

fn refused(number: u8) -> Cursor
    ensures { result ≡ refuse number 0 }
{
    Err(Refusal { number, offset: 0 })
}

// A judgement whose start is moved to `at`; past the largest message it is too long.
#[tactic(auto, unfolding(message::specs::Pieces::placed))]
fn place(at: usize, start: usize, judgement: Cursor) -> Cursor
    ensures { result ≡ placed at start judgement }
{
    let end = match judgement {
        Ok(end) => end,
        Err(refusal) => refusal.offset,
    };
    let n = end.saturating_sub(start);
    if message::LARGEST < at || message::LARGEST - at < n {
        return refused(Refusal::RANGE);
    }
    match judgement {
        Ok(_) => Ok(at + n),
        Err(refusal) => Err(Refusal {
            number: refusal.number,
            offset: at + n,
        }),
    }
}

// One judgement of a field.
fn test(good: bool, width: usize, refusal: u8) -> Cursor
    ensures { result ≡ tested good width refusal }
{
    if good { Ok(width) } else { refused(refusal) }
}

pub fn judge_number<N: Number>(low: N, high: N, refusal: u8, value: N) -> Cursor
    ensures { result ≡ tested (in_range (N.value low) (N.value high) (N.value value)) N.WIDTH refusal }
{
    test(
        low.wide() <= value.wide() && value.wide() <= high.wide(),
        N::WIDTH,
        refusal,
    )
}

// An id that is not 0.
fn judge_id(value: u32) -> Cursor
    ensures { result ≡ id_judgement value }
{
    judge_number(1, u32::MAX, Refusal::FIELD, value)
}

// An xid: there inside a stream block, and not given elsewhere.
fn judge_xid(in_block: bool, xid: u32) -> Cursor
    ensures { result ≡ xid_judgement in_block xid }
{
    if in_block {
        judge_id(xid)
    } else {
        test(xid == 0, 0, Refusal::FIELD)
    }
}

// Whether a span lies in the source.
fn lies(source: &[u8], span: Span) -> bool
    ensures { result ≡ leb (span.start + span.length) (bytes_in source.now) }
{
    span.start <= source.len() && span.length <= source.len() - span.start
}

// `n` bytes of the source from `start`, or those that it has.
pub fn cut_of(source: &[u8], start: usize, n: usize) -> &[u8]
    ensures { result.now ≡ cut source.now start n }
{
    if source.len() <= start {
        return &[];
    }
    if n <= source.len() - start {
        return &source[start..start + n];
    }
    &source[start..]
}

// A text of the source, with its zero byte.
fn judge_text(source: &[u8], text: Span) -> Cursor
    ensures { result ≡ text_judgement source.now text.start text.length }
{
    if !lies(source, text) {
        return refused(Refusal::SHORT);
    }
    if wire::contains(cut_of(source, text.start, text.length), 0) {
        return refused(Refusal::FIELD);
    }
    Ok(text.length + 1)
}

// Where a tuple ends in the source.
#[tactic(auto, using(reader::proofs::Offset::tuple_there))]
pub fn tuple_end(source: &[u8], start: usize) -> Cursor
    ensures { result ≡ tuple_end source.now (Ok start) }
{
    match reader::tuple_end_offset(source, start) {
        Some(end) => Ok(end),
        None => reader::tuple_end(source, Ok(start)),
    }
}

// Where an Update's old tuple ends in the source.
pub fn old_end(source: &[u8], old: OldTuple) -> Cursor
    ensures { result ≡ old_end source.now old }
{
    match old {
        OldTuple::Nothing => Ok(0),
        OldTuple::Key(start) | OldTuple::Full(start) => tuple_end(source, start),
    }
}

// How far a message would reach with the fields so far, or the first refusal.
#[derive(Clone, Copy)]
pub struct Reach {
    pub end: Cursor,
}

impl Reach {
    // Version, then kind, then the letter.
    #[tactic(auto, unfolding(message::specs::Pieces::opened))]
    pub fn open(version: Version, in_block: bool, kind: Kind) -> Reach
        ensures { result.end ≡ opened version in_block (Some kind) }
    {
        let end = if !version.allows(in_block) {
            refused(Refusal::VERSION)
        } else {
            test(version.has(Some(kind)), 1, Refusal::KIND)
        };
        Reach { end }
    }

    // What lies in the source from `start` on, with its judgement.
    pub fn section(self, start: usize, judgement: Cursor) -> Reach
        ensures { result.end ≡ advanced start judgement self.end }
    {
        let end = match self.end {
            Ok(at) => place(at, start, judgement),
            Err(refusal) => Err(refusal),
        };
        Reach { end }
    }

    fn field(self, judgement: Cursor) -> Reach
        ensures { result.end ≡ advanced 0 judgement self.end }
    {
        self.section(0, judgement)
    }

    // `n` bytes that are good whatever they hold.
    pub fn bytes(self, n: usize) -> Reach
        ensures { result.end ≡ advanced 0 (Ok n) self.end }
    {
        self.field(Ok(n))
    }

    // A number from `low` to `high`, else `refusal`.
    pub fn number<N: Number>(self, low: N, high: N, refusal: u8, value: N) -> Reach
        ensures { result.end ≡ advanced 0 (tested (in_range (N.value low) (N.value high) (N.value value)) N.WIDTH refusal) self.end }
    {
        self.field(judge_number(low, high, refusal, value))
    }

    // Any number of 64 bits.
    pub fn long(self, value: u64) -> Reach
        ensures { result.end ≡ advanced 0 (tested (in_range 0 most64 value) 8 4) self.end }
    {
        self.number(0, u64::MAX, Refusal::FIELD, value)
    }

    // A byte that is at most `most`.
    pub fn byte(self, most: u8, value: u8) -> Reach
        ensures { result.end ≡ advanced 0 (tested (in_range 0 most value) 1 4) self.end }
    {
        self.number(0, most, Refusal::FIELD, value)
    }

    // An id that is not 0.
    pub fn id(self, value: u32) -> Reach
        ensures { result.end ≡ advanced 0 (id_judgement value) self.end }
    {
        self.field(judge_id(value))
    }

    // An xid: there inside a stream block, and not given elsewhere.
    pub fn xid(self, in_block: bool, xid: u32) -> Reach
        ensures { result.end ≡ advanced 0 (xid_judgement in_block xid) self.end }
    {
        self.field(judge_xid(in_block, xid))
    }

    pub fn letter(self, set: &[u8], letter: u8) -> Reach
        ensures { result.end ≡ advanced 0 (tested (member set.now letter) 1 4) self.end }
    {
        self.field(test(wire::contains(set, letter), 1, Refusal::FIELD))
    }

    // A text of the source, with its zero byte.
    pub fn text(self, source: &[u8], text: Span) -> Reach
        ensures { result.end ≡ advanced 0 (text_judgement source.now text.start text.length) self.end }
    {
        self.field(judge_text(source, text))
    }

    pub fn content(self, source: &[u8], content: Span) -> Reach
        ensures { result.end ≡ advanced 0 (tested (leb (content.start + content.length) (length source.now)) content.length 2) self.end }
    {
        self.field(test(lies(source, content), content.length, Refusal::SHORT))
    }

    // An old tuple's letter and the tuple, or nothing.
    pub fn old(self, old: OldTuple, end: Cursor) -> Reach
        ensures { result.end ≡ old_advanced old end self.end }
    {
        match old {
            OldTuple::Nothing => self,
            OldTuple::Key(start) | OldTuple::Full(start) => self.bytes(1).section(start, end),
        }
    }

    // An end that the output has no room for is refused.
    pub fn fit(self, room: usize) -> Cursor
        ensures { result ≡ room_for room self.end }
    {
        match self.end {
            Ok(n) => test(n <= room, n, Refusal::OUTPUT),
            Err(refusal) => Err(refusal),
        }
    }
}
