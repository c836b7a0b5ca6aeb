// Binary values of a tuple, by a table of types of its own.
ghost use Rattle.std.specs.Prelude.{◌≤◌, length};
ghost use Rattle.second_reader.specs.Bounds.{Numbered, Onward};

use crate::fields::{Step, big_endian, sized};
use crate::{Reason, Refused};

// A type's OID, and how many bytes its values have.
const TYPES: [(u32, usize); 7] = [
    (16, 1),
    (20, 8),
    (21, 2),
    (23, 4),
    (700, 4),
    (701, 8),
    (1184, 8),
];

// How many bytes the values of a type have, where the table has it.
fn width_of(oid: u32) -> Option<usize> {
    TYPES.iter().find(|row| row.0 == oid).map(|row| row.1)
}

// The `b` column at any offset, whose type has this OID: where the next column starts and the number that the value
// spells; of a type that the table lacks, how many bytes the value has.
pub fn read_value(s: &[u8], at: usize, oid: u32) -> Result<Step, Refused>
    ensures number_bound { Numbered 17 result }
    ensures at_le_at { at ≤ length s.now → Onward at (length s.now) result }
{
    match s.get(at) {
        None => return Err(Reason::Short.at(at)),
        Some(b'b') => {}
        Some(_) => return Err(Reason::Field.at(at)),
    }
    let found = sized(s, at + 1)?;
    let Some(width) = width_of(oid) else {
        return Ok(found);
    };
    let size = found.value as usize;
    let start = found.at - size;
    let value = big_endian(&s[start..found.at]);
    if size != width || (width == 1 && 1 < value) {
        return Err(Reason::Value.at(start));
    }
    Ok(Step {
        at: found.at,
        value,
    })
}
