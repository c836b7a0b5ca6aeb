#![tactic(auto)]
// Any bytes to a typed message, or one refusal. Each kind has a function of its own, since kinds differ in their fields and not only in a
// type; what fields have in common is said once, by `Reader`.
ghost use Rattle.std.specs.Prelude.{◌≡◌};
ghost use Rattle.wire.specs.Cursors.{refuse};
ghost use Rattle.message.specs.Messages.{read_kind, read_message};

use message::{Kind, Message, Version};
use wire::Refusal;

mod changes;
mod expected;
mod framing;
mod passing;
mod schema;
mod transactions;
mod tuples;

pub use changes::relation_oids;
pub use expected::{Common, expecting};
pub use schema::relation_columns;
pub use tuples::{tuple_end, tuple_end_offset};

fn refused(number: u8) -> Result<Message, Refusal>
    ensures { result ≡ refuse number 0 }
{
    Err(Refusal { number, offset: 0 })
}

// A message of a kind.
#[tactic(auto, unfolding(message::specs::Messages::read_kind))]
fn read_kind(kind: Kind, s: &[u8], in_block: bool) -> Result<Message, Refusal>
    ensures { result ≡ read_kind kind in_block s.now }
{
    match kind {
        Kind::Begin => transactions::read_begin(s),
        Kind::Commit => transactions::read_commit(s),
        Kind::Origin => transactions::read_origin(s),
        Kind::Relation => schema::read_relation(s, in_block),
        Kind::Type => schema::read_type(s, in_block),
        Kind::Insert => changes::read_insert(s, in_block),
        Kind::Update => changes::read_update(s, in_block),
        Kind::Delete => changes::read_delete(s, in_block),
        Kind::Truncate => changes::read_truncate(s, in_block),
        Kind::Message => changes::read_logical_message(s, in_block),
        Kind::StreamStart => transactions::read_stream_start(s),
        Kind::StreamStop => transactions::read_stream_stop(s),
        Kind::StreamCommit => transactions::read_stream_commit(s),
        Kind::StreamAbort => transactions::read_stream_abort(s),
    }
}

// Any bytes at any version, inside a stream block or outside: a message, or the first refusal. The two stay apart: C hands over two
// numbers, and a session has the version in its record and the block from its place; a struct of them would be made for each call.
pub fn read_message(version: Version, in_block: bool, bytes: &[u8]) -> Result<Message, Refusal>
    ensures { result ≡ read_message version in_block bytes.now }
{
    if !version.allows(in_block) {
        return refused(Refusal::VERSION);
    }
    if message::LARGEST < bytes.len() {
        return refused(Refusal::RANGE);
    }
    if bytes.len() == 0 {
        return refused(Refusal::SHORT);
    }
    let kind = message::kind_of(bytes[0]);
    if !version.has(kind) {
        return refused(Refusal::KIND);
    }
    match kind {
        Some(kind) => read_kind(kind, bytes, in_block),
        None => refused(Refusal::KIND),
    }
}
