// The table of types.
ghost use Rattle.std.specs.Prelude.{◌≡◌};
ghost use Rattle.values.specs.Types.{row_of, kind_of_type, has_width};

use crate::{TypeRow, ValueKind};

// How the values of a type are read.
pub fn kind_of_type(type_oid: u32) -> ValueKind
    ensures { result ≡ kind_of_type type_oid }
{
    match type_oid {
        16 => ValueKind::Bool,
        21 => ValueKind::Int2,
        23 => ValueKind::Int4,
        20 => ValueKind::Int8,
        700 => ValueKind::Float4,
        701 => ValueKind::Float8,
        1184 => ValueKind::TimestampTz,
        _ => ValueKind::Raw,
    }
}

fn row(oid: u32, width: usize, most: u64) -> TypeRow
    ensures { result ≡ record { oid = oid; width = width; most = most } }
{
    TypeRow { oid, width, most }
}

// A kind's line of the table; all 0 for raw.
pub fn row_of(kind: ValueKind) -> TypeRow
    ensures { result ≡ row_of kind }
{
    match kind {
        ValueKind::Bool => row(16, 1, 1),
        ValueKind::Int2 => row(21, 2, u16::MAX as u64),
        ValueKind::Int4 => row(23, 4, u32::MAX as u64),
        ValueKind::Int8 => row(20, 8, u64::MAX),
        ValueKind::Float4 => row(700, 4, u32::MAX as u64),
        ValueKind::Float8 => row(701, 8, u64::MAX),
        ValueKind::TimestampTz => row(1184, 8, u64::MAX),
        ValueKind::Raw => row(0, 0, 0),
    }
}

// Whether a value of the kind may have so many bytes.
pub fn has_width(kind: ValueKind, count: usize) -> bool
    ensures { result ≡ has_width kind count }
{
    match kind {
        ValueKind::Raw => true,
        _ => count == row_of(kind).width,
    }
}
