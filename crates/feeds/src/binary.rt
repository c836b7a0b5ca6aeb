// Reads the binary columns of a feed's changes by the types that their announcements say, and writes them back.
use crate::blocks::stays_in_block;
use crate::records::{FEED, Records};
use crate::sums::Sums;
use columns::{Column, Position, RelationColumn, Step, Which};
use message::Version;
use session::Session;
use std::alloc::{AllocError, Global};
use std::collections::BTreeMap;
use values::Value;

// Announcements are noted of so many messages at the start of a feed; of later ones no type is known.
const NOTED: u64 = 2048;

// A value has no more bytes than this.
const ROOM: usize = 64;

// An announcement, and where its columns start in it.
#[derive(Clone, Copy)]
struct Announced<'a> {
    message: &'a [u8],
    columns: Position,
}

// A session, whether the next message is in a block, the announcements by their index, and the values so far.
#[derive(Drop)]
struct Reading<'a> {
    session: Session,
    version: Version,
    in_block: bool,
    announced: BTreeMap<u64, Announced<'a>>,
    sums: Sums,
}

// The binary value at a column's position, if it is written as the part of the message that it was read from.
fn written_back(bytes: &[u8], at: Position, type_oid: u32, part: &[u8]) -> Option<Value> {
    let value = values::typed_step(bytes, at, type_oid).item.ok()??;
    let mut out = [0u8; ROOM];
    let n = values::write_value(value, bytes, &mut out).ok()?;
    if out.get(..n)? == part {
        Some(value)
    } else {
        None
    }
}

impl<'a> Announced<'a> {
    // The next column's type, 0 where there is none.
    fn next_type(&mut self) -> u32 {
        let Step { item, next } = columns::item_at::<RelationColumn>(self.message, self.columns);
        self.columns = next;
        match item {
            Ok(Some(column)) => column.type_oid,
            _ => 0,
        }
    }
}

impl<'a> Reading<'a> {
    // Reads a column at a position, where it is binary.
    fn read_column(&mut self, bytes: &[u8], at: Position, column: Column, type_oid: u32) {
        if column.letter != Column::BINARY {
            return;
        }
        match written_back(bytes, at, type_oid, columns::part(bytes, column.value)) {
            Some(value) => self.sums.add(value),
            None => self.sums.add_wrong(),
        }
    }

    // Reads the columns of a tuple from a position on.
    fn read_tuple(&mut self, bytes: &[u8], first: Position, announced: Option<Announced<'a>>) {
        let mut at = first;
        let mut types = announced;
        for _ in 0..first.left {
            let type_oid = types.as_mut().map_or(0, |types| types.next_type());
            let Step { item, next } = columns::item_at::<Column>(bytes, at);
            if let Ok(Some(column)) = item {
                self.read_column(bytes, at, column, type_oid);
            }
            at = next;
        }
    }

    // Both tuples of a change.
    fn read_change(&mut self, bytes: &[u8], tag: u64) {
        let announced = self.announced.get(&tag).copied();
        for which in [Which::Old, Which::New] {
            let started = columns::tuple_start(self.version, self.in_block, bytes, which);
            if let Ok(first) = started {
                self.read_tuple(bytes, first, announced);
            }
        }
    }

    fn note(&mut self, message: &'a [u8], index: u64) -> Result<(), AllocError> {
        let started = columns::relation_start(self.version, self.in_block, message);
        if let Ok(columns) = started {
            if index < NOTED {
                self.announced
                    .insert(index, Announced { message, columns })?;
            }
        }
        Ok(())
    }

    // Gives a message to the session, and reads the binary columns of an accepted change.
    fn read(&mut self, message: &'a [u8], index: u64) -> Result<(), AllocError> {
        let answer = session::give_lent(&mut self.session, message, index);
        self.note(message, index)?;
        if let Ok(Some(seen)) = answer {
            self.read_change(message, seen.tag);
        }
        self.in_block = stays_in_block(self.in_block, message.first().copied());
        Ok(())
    }
}

// All binary values of a feed.
pub fn read_all(alloc: Global, version: u32, trace: &[u8]) -> Result<Sums, AllocError> {
    let mut reading = Reading {
        session: session::start(version),
        version: Version { number: version },
        in_block: false,
        announced: BTreeMap::new(alloc),
        sums: Sums::new(),
    };
    for (index, record) in Records::of(trace, FEED).enumerate() {
        reading.read(record.message, index as u64)?;
    }
    let Reading { sums, .. } = reading;
    Ok(sums)
}
