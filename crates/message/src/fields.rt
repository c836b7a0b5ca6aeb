// Fields that several layouts have.
ghost use Rattle.std.specs.Prelude.{◌≡◌};
ghost use Rattle.wire.specs.Readers.{Reads};
ghost use Rattle.message.specs.Layout.{id, has_value, number_of, column_letter, column_count};

use crate::MOST_COLUMNS;
use wire::{Reader, Refusal};

// An xid, sub-xid or relation OID, which is not 0.
#[inline(always)]
pub fn id(r: &mut Reader) -> Result<u32, Refusal>
    ensures { Reads (number_of id r.old.bytes.now r.old.next) r.old result r.new }
{
    r.number(1, u32::MAX, Refusal::FIELD)
}

// How many columns a tuple or a relation has.
#[inline(always)]
pub fn column_count(r: &mut Reader) -> Result<u16, Refusal>
    ensures { Reads (column_count r.old.bytes.now r.old.next) r.old result r.new }
{
    r.number(0, MOST_COLUMNS, Refusal::RANGE)
}

// The letter of a column of a tuple.
#[inline(always)]
pub fn column_letter(r: &mut Reader) -> Result<u8, Refusal>
    ensures { Reads (column_letter r.old.bytes.now r.old.next) r.old result r.new }
{
    r.letter(b"nutb")
}

// Whether a column of this letter has a value.
#[inline(always)]
pub fn has_value(letter: u8) -> bool
    ensures { result ≡ has_value letter }
{
    letter == b't' || letter == b'b'
}
