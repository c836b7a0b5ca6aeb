// The types of columns, as the last Relations announced them.
use crate::items::{Cell, Items};
use columns::RelationColumn;
use message::Relation;
use session::Answer;
use std::alloc::{AllocError, Global};
use std::collections::BTreeMap;

// How many announcements are remembered.
const ROWS: usize = 512;

// Of how many columns of each: as many as are shown.
pub const WIDTH: usize = 32;

// For each announcement, by the index of its message, the type OIDs of its first columns.
#[derive(Drop)]
pub struct Types {
    alloc: Global,
    rows: BTreeMap<u64, Vec<u32>>,
}

// The type of a Relation's column.
fn type_in(column: Cell<RelationColumn>) -> u32 {
    column.item.type_oid
}

impl Types {
    pub fn new(alloc: Global) -> Types {
        Types {
            alloc,
            rows: BTreeMap::new(alloc),
        }
    }

    // Remembers a Relation that was accepted, and forgets the first one where there are too many.
    pub fn remember(&mut self, index: u64, x: Relation, bytes: &[u8]) -> Result<(), AllocError> {
        let columns = Items::new(bytes, x.columns, usize::from(x.count));
        let row = columns.take(WIDTH).map(type_in).collect(self.alloc)?;
        self.rows.insert(index, row)?;
        if ROWS < self.rows.len() {
            self.rows.pop_first();
        }
        Ok(())
    }

    // The types of the columns of a change, by the answer to it; none where it was refused or its announcement is not remembered.
    pub fn of(&self, answer: Answer) -> &[u32] {
        let Ok(Some(seen)) = answer else {
            return &[];
        };
        match self.rows.get(&seen.tag) {
            Some(row) => row.as_slice(),
            None => &[],
        }
    }
}
