// The lists in a message: a tuple's columns, a Relation's columns and a Truncate's relations, each item behind its number.
use crate::items::{Cell, Items};
use crate::text::{Count, Text};
use crate::typed::Binary;
use crate::types::WIDTH;
use columns::{Column, RelationColumn, TruncatedRelation};
use message::fields;
use std::fmt;
use wire::Reader;

// A tuple, from where its count stands, with the types of its columns where they are known.
#[derive(Clone, Copy)]
pub struct Tuple<'a> {
    pub bytes: &'a [u8],
    pub start: usize,
    pub types: &'a [u32],
}

#[derive(Clone, Copy)]
pub struct RelationColumns<'a> {
    pub bytes: &'a [u8],
    pub start: usize,
    pub count: u16,
}

#[derive(Clone, Copy)]
pub struct Relations<'a> {
    pub bytes: &'a [u8],
    pub start: usize,
    pub count: u32,
}

// A column of a tuple.
#[derive(Clone, Copy)]
struct Value<'a> {
    bytes: &'a [u8],
    cell: Cell<Column>,
    type_oid: u32,
}

// A column of a Relation.
#[derive(Clone, Copy)]
struct Announced<'a> {
    bytes: &'a [u8],
    column: RelationColumn,
}

// A relation of a Truncate.
#[derive(Clone, Copy)]
struct Truncated(TruncatedRelation);

impl fmt::Display for Value<'_> {
    fn fmt<W: fmt::Write>(&self, f: &mut fmt::Formatter<W>) -> fmt::Result {
        let Column { letter, value } = self.cell.item;
        let part = columns::part(self.bytes, value);
        match letter {
            Column::NULL => write!(f, "null"),
            Column::UNCHANGED => write!(f, "unchanged"),
            Column::BINARY => {
                let binary = Binary::at(self.bytes, self.cell.from, self.type_oid, part);
                write!(f, "{binary}")
            }
            _ => write!(f, "{}", Text(part)),
        }
    }
}

impl fmt::Display for Announced<'_> {
    fn fmt<W: fmt::Write>(&self, f: &mut fmt::Formatter<W>) -> fmt::Result {
        let RelationColumn {
            key,
            name,
            type_oid,
            modifier,
        } = self.column;
        let key = if key == 1 { "key " } else { "" };
        let name = Text(columns::part(self.bytes, name));
        write!(f, "{key}{name} type {type_oid} modifier {modifier}")
    }
}

impl fmt::Display for Truncated {
    fn fmt<W: fmt::Write>(&self, f: &mut fmt::Formatter<W>) -> fmt::Result {
        write!(f, "{}", self.0.oid)
    }
}

// The first items of a list, and how many more there are.
fn write_list<W: fmt::Write, T: fmt::Display + Drop, I: Iterator<Item = T>>(
    f: &mut fmt::Formatter<W>,
    count: usize,
    items: I,
) -> fmt::Result
    requires { I.can_next items }
{
    for (k, item) in (1..=WIDTH).zip(items) {
        let separator = if k == 1 { ":" } else { "," };
        write!(f, "{separator} [{k}] {item}")?;
    }
    if count <= WIDTH {
        return Ok(());
    }
    write!(f, " and {} more", count - WIDTH)
}

impl fmt::Display for Tuple<'_> {
    fn fmt<W: fmt::Write>(&self, f: &mut fmt::Formatter<W>) -> fmt::Result {
        let Tuple {
            bytes,
            start,
            types,
        } = *self;
        let mut reader = Reader::at(bytes, start);
        let columns = fields::column_count(&mut reader).unwrap_or(0);
        let count = usize::from(columns);
        let cells = Items::new(bytes, reader.offset(), count);
        let values = cells.enumerate().map(|(k, cell)| {
            let type_oid = types.get(k).copied().unwrap_or(0);
            Value {
                bytes,
                cell,
                type_oid,
            }
        });
        write!(f, " {}", Count(u64::from(columns), "column"))?;
        write_list(f, count, values)
    }
}

impl fmt::Display for RelationColumns<'_> {
    fn fmt<W: fmt::Write>(&self, f: &mut fmt::Formatter<W>) -> fmt::Result {
        let bytes = self.bytes;
        let count = usize::from(self.count);
        let columns = Items::new(bytes, self.start, count);
        let columns = columns.map(|cell| Announced {
            bytes,
            column: cell.item,
        });
        write_list(f, count, columns)
    }
}

impl fmt::Display for Relations<'_> {
    fn fmt<W: fmt::Write>(&self, f: &mut fmt::Formatter<W>) -> fmt::Result {
        let count = self.count as usize;
        let relations = Items::new(self.bytes, self.start, count);
        write_list(f, count, relations.map(|cell| Truncated(cell.item)))
    }
}
