#![tactic(auto)]
// Reads the messages of logical replication a second way, to compare the reader with. A table has the layout of each
// kind as a row of field codes, which a loop goes through:
//
//   l  a kind's letter
//   x  an xid, inside a stream block only        i  an id, not 0
//   w  any 32 bits                               q  any 64 bits
//   0  1  3  a byte of at most that              d  the letter of a replica identity
//   c  a column count                            r  a relation count
//   s  a text                                    v  a length and its bytes
//   N  `N` and a tuple                           K  `K` or `O` and a tuple
//   U  the same as K, or nothing                 C  columns of a Relation
//   R  OIDs of a Truncate                        t  a column of a tuple, in what `read_at` is asked for

ghost use Rattle.std.specs.Prelude.{◌≡◌, ◌≤◌, length};
ghost use Rattle.second_reader.specs.Bounds.{Advanced, Answered, Numbered};

mod fields;
mod listed;
mod reader;
mod refusals;
mod seen;
mod values;

pub use fields::{Step, Tuple, read_tuple};
use reader::Reader;
pub use refusals::{Reason, Refused};
pub use seen::{Seen, Values};
pub use values::read_value;

// A row for each kind: its letter and the codes of its fields, which stay letters, so that a row reads as a layout. The
// first rows are those of version 1.
const LAYOUTS: [&[u8]; 14] = [
    b"Bqqi",
    b"C0qqq",
    b"Oqs",
    b"RxissdcC",
    b"Yxwss",
    b"IxiN",
    b"UxiUN",
    b"DxiK",
    b"Txr3R",
    b"Mx1qsv",
    b"Si1",
    b"E",
    b"ci0qqq",
    b"Aii",
];

const FIRST_ROWS: usize = 10;

const LARGEST: usize = 1_073_741_823;

// The fields that stand at any offset, several times over.
pub fn read_at(s: &[u8], at: usize, codes: &[u8], times: u64) -> Result<Step, Refused>
    ensures number_bound { Numbered 6 result }
    ensures advanced { at ≤ length s.now → Advanced at (length s.now) result }
{
    if s.len() < at {
        return Err(Reason::Short.at(at));
    }
    fields::repeated(s, at, codes, times)
}

// The codes of the fields of the kind that has this letter.
fn codes_for(rows: &[&'static [u8]], letter: u8) -> Option<&'static [u8]> {
    rows.iter().find_map(|row| row.strip_prefix(&[letter]))
}

// Reads any bytes at any version, inside a stream block or outside.
pub fn read(version: u32, in_block: bool, s: &[u8]) -> Result<Seen, Refused>
    ensures { Answered (length s.now) result }
{
    let rows = match (version, in_block) {
        (1, false) => &LAYOUTS[..FIRST_ROWS],
        (2, _) => &LAYOUTS[..],
        _ => return Err(Reason::Version.at(0)),
    };
    if LARGEST < s.len() {
        return Err(Reason::Range.at(0));
    }
    let Some(letter) = s.first() else {
        return Err(Reason::Short.at(0));
    };
    let Some(codes) = codes_for(rows, *letter) else {
        return Err(Reason::Kind.at(0));
    };
    let mut reader = Reader::new(s, in_block);
    reader.number(b'l')?;
    for code in codes {
        reader.field(*code)?;
    }
    reader.finish()
}
