#![tactic(auto)]

ghost use Rattle.std.specs.Prelude.{◌≡◌};
ghost use Rattle.message.specs.Versions.{is_known, version_allows, version_has};

use wire::Span;

pub mod fields;
mod kinds;

pub use kinds::{Kind, UnknownKind, kind_of};

// The largest message, in bytes.
pub const LARGEST: usize = 1_073_741_823;

// The most columns of a tuple or a relation.
pub const MOST_COLUMNS: u16 = 1600;

// The most relations of a Truncate.
pub const MOST_RELATIONS: u32 = 256;

// A protocol version: any number, known or not.
#[derive(Clone, Copy)]
pub struct Version {
    pub number: u32,
}

impl Version {
    // Transactions come whole, after their commit.
    pub const FIRST: u32 = 1;
    // Large transactions come in stream blocks while they are in progress.
    pub const STREAMING: u32 = 2;

    // Whether there is this version.
    pub fn is_known(self) -> bool
        ensures { result ≡ is_known self }
    {
        self.number == Self::FIRST || self.number == Self::STREAMING
    }

    // Whether this version is known and, inside a stream block, has stream blocks.
    #[tactic(auto, unfolding(crate::specs::Versions::version_allows))]
    pub fn allows(self, in_block: bool) -> bool
        ensures { result ≡ version_allows self in_block }
    {
        self.is_known() && (!in_block || Self::STREAMING <= self.number)
    }

    // Whether this version is known and has a kind; what is no kind it has not.
    #[tactic(auto, unfolding(crate::specs::Versions::version_has))]
    pub fn has(self, kind: Option<Kind>) -> bool
        ensures { result ≡ version_has self kind }
    {
        match kind {
            None => false,
            Some(kind) => self.is_known() && kind.first_version() <= self.number,
        }
    }
}

// Letters, flags and xids are numbers as the bytes have them, 0 for an xid that is not there, and no enum or Option: `write_message` promises
// what writing answers for any of them, its refusal where the layout forbids it.

// Texts, contents and values are parts of the message's bytes. A tuple, a Relation's columns and a Truncate's OIDs lie
// in their layout from an offset on. An `xid` that only stands inside a stream block is 0 elsewhere.
#[derive(Clone, Copy)]
pub struct Begin {
    pub final_lsn: u64,
    pub time: i64,
    pub xid: u32,
}

#[derive(Clone, Copy)]
pub struct Commit {
    pub flags: u8,
    pub commit_lsn: u64,
    pub end_lsn: u64,
    pub time: i64,
}

#[derive(Clone, Copy)]
pub struct Origin {
    pub lsn: u64,
    pub name: Span,
}

#[derive(Clone, Copy)]
pub struct Relation {
    pub xid: u32,
    pub relation: u32,
    pub namespace: Span,
    pub name: Span,
    pub identity: u8,
    pub count: u16,
    pub columns: usize,
}

// The letters of a replica identity.
impl Relation {
    pub const DEFAULT: u8 = b'd';

    pub const NOTHING: u8 = b'n';

    pub const FULL: u8 = b'f';

    pub const INDEX: u8 = b'i';
}

#[derive(Clone, Copy)]
pub struct Type {
    pub xid: u32,
    pub oid: u32,
    pub namespace: Span,
    pub name: Span,
}

#[derive(Clone, Copy)]
pub struct Insert {
    pub xid: u32,
    pub relation: u32,
    pub tuple: usize,
}

// The old tuple of an Update, where it starts.
#[derive(Clone, Copy)]
pub enum OldTuple {
    Nothing,
    Key(usize),
    Full(usize),
}

#[derive(Clone, Copy)]
pub struct Update {
    pub xid: u32,
    pub relation: u32,
    pub old: OldTuple,
    pub tuple: usize,
}

// `image` says what the tuple holds: `K`, the key, or `O`, the whole old row.
#[derive(Clone, Copy)]
pub struct Delete {
    pub xid: u32,
    pub relation: u32,
    pub image: u8,
    pub tuple: usize,
}

#[derive(Clone, Copy)]
pub struct Truncate {
    pub xid: u32,
    pub count: u32,
    pub options: u8,
    pub relations: usize,
}

// The bits of a Truncate's options.
impl Truncate {
    pub const CASCADE: u8 = 1;

    pub const RESTART_IDENTITY: u8 = 2;
}

#[derive(Clone, Copy)]
pub struct LogicalMessage {
    pub xid: u32,
    pub flags: u8,
    pub lsn: u64,
    pub prefix: Span,
    pub content: Span,
}

#[derive(Clone, Copy)]
pub struct StreamCommit {
    pub xid: u32,
    pub flags: u8,
    pub commit_lsn: u64,
    pub end_lsn: u64,
    pub time: i64,
}

// Stream Start's and Stream Abort's fields are held directly: as structs of eight bytes they would make every message be copied through
// memory.
#[derive(Clone, Copy)]
pub enum Message {
    Begin(Begin),
    Commit(Commit),
    Origin(Origin),
    Relation(Relation),
    Type(Type),
    Insert(Insert),
    Update(Update),
    Delete(Delete),
    Truncate(Truncate),
    Message(LogicalMessage),
    StreamStart { xid: u32, first: u8 },
    StreamStop,
    StreamCommit(StreamCommit),
    StreamAbort { xid: u32, sub_xid: u32 },
}
