// The kinds of messages, their numbers and letters.
ghost use Rattle.std.specs.Prelude.{◌≡◌, ℕ, Some, Result};
ghost use Rattle.message.specs.Kinds.{first_version, kind_of, kind_number};
ghost use Rattle.message.specs.Numbered.{Numbers};

use crate::Version;
use std::convert::TryFrom;

// The kinds, in the order of the layouts.
#[derive(Clone, Copy, PartialEq, Eq)]
pub enum Kind {
    Begin,
    Commit,
    Origin,
    Relation,
    Type,
    Insert,
    Update,
    Delete,
    Truncate,
    Message,
    StreamStart,
    StreamStop,
    StreamCommit,
    StreamAbort,
}

// A number that is no kind's.
#[derive(Clone, Copy, PartialEq, Eq)]
pub struct UnknownKind(pub u8);

impl Kind {
    // Its place among the kinds, from 1 on.
    pub fn number(self) -> u8
        ensures { result ≡ kind_number (Some self) }
    {
        match self {
            Kind::Begin => 1,
            Kind::Commit => 2,
            Kind::Origin => 3,
            Kind::Relation => 4,
            Kind::Type => 5,
            Kind::Insert => 6,
            Kind::Update => 7,
            Kind::Delete => 8,
            Kind::Truncate => 9,
            Kind::Message => 10,
            Kind::StreamStart => 11,
            Kind::StreamStop => 12,
            Kind::StreamCommit => 13,
            Kind::StreamAbort => 14,
        }
    }

    // The first version that has it.
    pub fn first_version(self) -> u32
        ensures { result ≡ first_version self }
    {
        match self {
            Kind::StreamStart | Kind::StreamStop | Kind::StreamCommit | Kind::StreamAbort =>
                Version::STREAMING,
            Kind::Begin
            | Kind::Commit
            | Kind::Origin
            | Kind::Relation
            | Kind::Type
            | Kind::Insert
            | Kind::Update
            | Kind::Delete
            | Kind::Truncate
            | Kind::Message => Version::FIRST,
        }
    }
}

impl TryFrom<u8> for Kind {
    type Error = UnknownKind;

    ghost try_from_gives = { Numbers };

    #[tactic(auto, unfolding(crate::specs::Kinds::numbered))]
    fn try_from(number: u8) -> Result<Self, UnknownKind> {
        match number {
            1 => Ok(Kind::Begin),
            2 => Ok(Kind::Commit),
            3 => Ok(Kind::Origin),
            4 => Ok(Kind::Relation),
            5 => Ok(Kind::Type),
            6 => Ok(Kind::Insert),
            7 => Ok(Kind::Update),
            8 => Ok(Kind::Delete),
            9 => Ok(Kind::Truncate),
            10 => Ok(Kind::Message),
            11 => Ok(Kind::StreamStart),
            12 => Ok(Kind::StreamStop),
            13 => Ok(Kind::StreamCommit),
            14 => Ok(Kind::StreamAbort),
            _ => Err(UnknownKind(number)),
        }
    }
}

// The number of the kind that each first byte names, and 0 where it names none. A table of 256 numbers is the project's form for it, and
// its two rules (`entry`, `entries_distinct`) are said of the table.
const OF_LETTER: [u8; 256] = [
    0, 0, 0, 0, 0, 0, 0, 0, 0, 0, 0, 0, 0, 0, 0, 0, 0, 0, 0, 0, 0, 0, 0, 0, 0, 0, 0, 0, 0, 0, 0, 0,
    0, 0, 0, 0, 0, 0, 0, 0, 0, 0, 0, 0, 0, 0, 0, 0, 0, 0, 0, 0, 0, 0, 0, 0, 0, 0, 0, 0, 0, 0, 0, 0,
    0, 14, // A
    1, // B
    2, // C
    8, // D
    12, // E
    0, 0, 0, 6, // I
    0, 0, 0, 10, // M
    0, 3, // O
    0, 0, 4, // R
    11, // S
    9, // T
    7, // U
    0, 0, 0, 5, // Y
    0, 0, 0, 0, 0, 0, 0, 0, 0, 13, // c
    0, 0, 0, 0, 0, 0, 0, 0, 0, 0, 0, 0, 0, 0, 0, 0, 0, 0, 0, 0, 0, 0, 0, 0, 0, 0, 0, 0, 0, 0, 0, 0,
    0, 0, 0, 0, 0, 0, 0, 0, 0, 0, 0, 0, 0, 0, 0, 0, 0, 0, 0, 0, 0, 0, 0, 0, 0, 0, 0, 0, 0, 0, 0, 0,
    0, 0, 0, 0, 0, 0, 0, 0, 0, 0, 0, 0, 0, 0, 0, 0, 0, 0, 0, 0, 0, 0, 0, 0, 0, 0, 0, 0, 0, 0, 0, 0,
    0, 0, 0, 0, 0, 0, 0, 0, 0, 0, 0, 0, 0, 0, 0, 0, 0, 0, 0, 0, 0, 0, 0, 0, 0, 0, 0, 0, 0, 0, 0, 0,
    0, 0, 0, 0, 0, 0, 0, 0, 0, 0, 0, 0, 0, 0, 0, 0, 0, 0, 0, 0, 0, 0, 0, 0, 0, 0, 0, 0,
];

// The number of the kind that a first byte names, and 0 for each other byte. An entry at a constant place is known when this is
// compiled; for any other place the table is laid on the stack first, so the letters of most messages stand here.
#[tactic(auto, unfolding(crate::specs::Kinds::kind_among))]
fn number_of(letter: u8) -> u8
    ensures { result ≡ kind_number (kind_of letter) }
{
    match letter {
        b'I' => OF_LETTER[b'I' as usize],
        b'U' => OF_LETTER[b'U' as usize],
        b'D' => OF_LETTER[b'D' as usize],
        b'B' => OF_LETTER[b'B' as usize],
        b'C' => OF_LETTER[b'C' as usize],
        b'R' => OF_LETTER[b'R' as usize],
        _ => OF_LETTER[letter as usize],
    }
}

// The kind that a first byte names.
#[tactic(auto, using(crate::proofs::Letters::numbered_number), unfolding(crate::specs::Kinds::numbered))]
pub fn kind_of(letter: u8) -> Option<Kind>
    ensures { result ≡ kind_of letter }
{
    Kind::try_from(number_of(letter)).ok()
}
