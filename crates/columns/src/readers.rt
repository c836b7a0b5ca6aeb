// A reader that holds the message and a position.
ghost use Rattle.std.specs.Prelude.{◌≡◌};
ghost use Rattle.columns.specs.Readers.{step_from, reader_step, moved_to, span_of};
ghost use Rattle.columns.specs.Parts.{VeryPart};

use crate::{Column, ColumnReader, ColumnValue, Position, steps};
use wire::Refusal;

// The very part of the message that is a column's value; the empty part where it has none.
pub fn column_part(message: &[u8], column: Result<Option<Column>, Refusal>) -> &[u8]
    ensures { VeryPart result message.entry (span_of column) }
{
    match column {
        Ok(Some(column)) => crate::part(message, column.value),
        Ok(None) => &message[0..0],
        Err(_) => &message[0..0],
    }
}

impl<'a> ColumnReader<'a> {
    // A reader of the message at a position.
    pub fn at(message: &'a [u8], position: Position) -> ColumnReader<'a>
        ensures { (result.message ≡ message.entry) × (result.position ≡ position) }
    {
        ColumnReader { message, position }
    }

    // One step: the column with its part of the message. After a refusal, and when the tuple is over, the reader stands where it was.
    #[tactic(auto, unfolding(crate::specs::Steps::tuple_step))]
    pub fn step(&mut self) -> ColumnValue<'a>
        ensures { (result.column ≡ (reader_step self.old).item)
            × VeryPart result.value self.old.message (span_of result.column)
            × (self.new ≡ moved_to self.old) }
    {
        let step = steps::item_at::<Column>(self.message, self.position);
        self.position = step.next;
        let value = column_part(self.message, step.item);
        ColumnValue {
            column: step.item,
            value,
        }
    }
}

// The first step of a reader at a position, for callers with plain parameters.
pub fn first(message: &[u8], offset: usize, left: usize) -> Result<Option<Column>, Refusal>
    ensures { result ≡ (step_from message.now offset left).item }
{
    let mut r = ColumnReader::at(message, Position { offset, left });
    r.step().column
}
