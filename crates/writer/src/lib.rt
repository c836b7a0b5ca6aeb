#![tactic(auto)]
// A typed message, with its parts in a source, into an output. The version and the kind are judged, the fields from left to right, then
// the room, and then the message is stored. Each kind has functions of its own, since kinds differ in their fields and not only in a type;
// what fields have in common is said once, by `Reach` and `Pen`. Version and block stay apart, as in `reader`.
ghost use Rattle.message.specs.Write.{write_message};
ghost use Rattle.writer.specs.Answer.{Settles};

use message::{Message, Version};
use wire::Refusal;

mod changes;
mod judging;
mod laying;
mod schema;
mod transactions;

pub use changes::{
    write_delete, write_insert, write_logical_message, write_truncate, write_update,
};
pub use schema::{write_relation, write_type};
pub use transactions::{
    write_begin, write_commit, write_origin, write_stream_abort, write_stream_commit,
    write_stream_start, write_stream_stop,
};

// Writes a message whose texts, contents, tuples, columns and OIDs lie in `source` to the front of `out`. What is refused leaves `out`
// as it was.
pub fn write_message(
    version: Version,
    in_block: bool,
    message: Message,
    source: &[u8],
    out: &mut [u8],
) -> Result<usize, Refusal>
    ensures { Settles (write_message version in_block message source.now) out.old result out.new }
{
    match message {
        Message::Begin(m) => transactions::write_begin(version, in_block, m, out),
        Message::Commit(m) => transactions::write_commit(version, in_block, m, out),
        Message::Origin(m) => transactions::write_origin(version, in_block, m, source, out),
        Message::Relation(m) => schema::write_relation(version, in_block, m, source, out),
        Message::Type(m) => schema::write_type(version, in_block, m, source, out),
        Message::Insert(m) => changes::write_insert(version, in_block, m, source, out),
        Message::Update(m) => changes::write_update(version, in_block, m, source, out),
        Message::Delete(m) => changes::write_delete(version, in_block, m, source, out),
        Message::Truncate(m) => changes::write_truncate(version, in_block, m, source, out),
        Message::Message(m) => changes::write_logical_message(version, in_block, m, source, out),
        Message::StreamStart { xid, first } => transactions::write_stream_start(
            version, in_block, xid, first, out,
        ),
        Message::StreamStop => transactions::write_stream_stop(version, in_block, out),
        Message::StreamCommit(m) => transactions::write_stream_commit(version, in_block, m, out),
        Message::StreamAbort { xid, sub_xid } => transactions::write_stream_abort(
            version, in_block, xid, sub_xid, out,
        ),
    }
}
