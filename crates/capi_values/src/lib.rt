#![tactic(auto)]
// Binary values exported to C, in an archive of its own as the keeper's is: what they share with reading and writing keeps its one caller there.
ghost use Rattle.std.specs.Prelude.{◌≡◌};
ghost use Rattle.wire.specs.Cursors.{refuse};
ghost use Rattle.writer.specs.Answer.{Settles};
ghost use Rattle.writer.specs.Told.{Writes};
ghost use Rattle.values.specs.Types.{kind_of_type};
ghost use Rattle.values.specs.Steps.{typed_step};
ghost use Rattle.capi_values.specs.Flat.{flat, write_flat};
ghost use Rattle.capi_values.specs.Stepping.{position_in, position_numbers, returned, numbers};

use columns::Position;
use values::{Bits, Value, ValueKind};
use wire::Refusal;

// Nothing is left: no refusal. A number: the C interface.
const OVER: u32 = 255;

// A value's flat form.
fn flatten(value: Value) -> [u64; 3]
    ensures { result ≡ flat value }
{
    let oid = values::row_of(values::kind_of(value)).oid;
    match values::bits_of(value) {
        Bits::Number { width: _, number } => [oid as u64, number, 0],
        Bits::Part { start, length } => [oid as u64, start as u64, length as u64],
    }
}

// Steps past the `b` column at a position, which may be made up, and reads its value by a type OID.
#[unsafe(no_mangle)]
pub extern "C" fn kq_value_step(
    bytes: &[u8],
    position: &mut [u64; 2],
    type_oid: u32,
    value: &mut [u64; 3],
) -> u32
    ensures { let s = typed_step bytes.now (position_in position.old) type_oid in
        (result ≡ returned s.item) × (value.new ≡ numbers s.item) × (position.new ≡ position_numbers s.next) }
{
    let at = Position {
        offset: position[0] as usize,
        left: position[1] as usize,
    };
    let step = values::typed_step(bytes, at, type_oid);
    *position = [step.next.offset as u64, step.next.left as u64];
    match step.item {
        Ok(Some(x)) => {
            *value = flatten(x);
            0
        }
        Ok(None) => {
            *value = [0, 0, 0];
            OVER
        }
        Err(refusal) => {
            *value = [refusal.offset as u64, 0, 0];
            refusal.number as u32
        }
    }
}

// The kind of a type's OID; a number that is too big for one is no listed type's.
fn kind_in(oid: u64) -> ValueKind
    ensures { result ≡ kind_of_type oid }
{
    if oid <= 0xFFFF_FFFF {
        values::kind_of_type(oid as u32)
    } else {
        ValueKind::Raw
    }
}

// Three numbers that are no value's flat form.
fn no_value() -> Result<usize, Refusal>
    ensures { result ≡ refuse 4 0 }
{
    Err(Refusal {
        number: Refusal::FIELD,
        offset: 0,
    })
}

// Writes the value of a flat form.
fn write_flat(value: &[u64; 3], source: &[u8], out: &mut [u8]) -> Result<usize, Refusal>
    ensures { Settles (write_flat value.now source.now) out.old result out.new }
{
    let oid = value[0];
    let first = value[1];
    let second = value[2];
    let kind = kind_in(oid);
    match kind {
        ValueKind::Raw => {
            if oid != 0 {
                return no_value();
            }
            let start = first as usize;
            let length = second as usize;
            values::write_bits(Bits::Part { start, length }, source, out)
        }
        _ => {
            let row = values::row_of(kind);
            if row.most < first {
                return no_value();
            }
            if second != 0 {
                return no_value();
            }
            let bits = Bits::Number {
                width: row.width,
                number: first,
            };
            values::write_bits(bits, source, out)
        }
    }
}

// Writes the value of a flat form, whose bytes lie in `source` where it is raw, to the front of `out`.
#[unsafe(no_mangle)]
pub extern "C" fn kq_value_write(
    value: &[u64; 3],
    source: &[u8],
    out: &mut [u8],
    res: &mut u64,
) -> u32
    ensures { Writes (write_flat value.now source.now) out.old result res.new out.new }
{
    match write_flat(value, source, out) {
        Ok(n) => {
            *res = n as u64;
            0
        }
        Err(refusal) => {
            *res = refusal.offset as u64;
            refusal.number as u32
        }
    }
}
