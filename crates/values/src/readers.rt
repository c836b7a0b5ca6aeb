// A column reader's typed step: the step at its position.
ghost use Rattle.std.specs.Prelude.{◌≡◌};
ghost use Rattle.values.specs.Readers.{reader_typed, typed_to};

use crate::{Value, reading};
use columns::ColumnReader;
use wire::Refusal;

// One step of a column reader past a `b` column. After a refusal, and when the tuple is over, it stands where it was.
pub fn step_typed(r: &mut ColumnReader, type_oid: u32) -> Result<Option<Value>, Refusal>
    ensures { (result ≡ (reader_typed r.old type_oid).item) × (r.new ≡ typed_to r.old type_oid) }
{
    let step = reading::typed_step(r.message, r.position, type_oid);
    r.position = step.next;
    step.item
}
