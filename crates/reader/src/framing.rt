// What stands around a message's own fields: the xid inside a stream block before them, and the end after them.
ghost use Rattle.std.specs.Prelude.{◌≡◌};
ghost use Rattle.wire.specs.Readers.{Reads};
ghost use Rattle.message.specs.Layout.{xid_field};
ghost use Rattle.message.specs.Messages.{finished};

use message::fields;
use wire::{Cursor, Reader, Refusal};

// Where a message ends, unless reading was refused or bytes are left over.
#[inline(always)]
pub fn finish(r: &Reader) -> Cursor
    ensures { result ≡ finished r.now.bytes.now r.now.next }
{
    let at = r.next?;
    if at != r.bytes.len() {
        return Err(Refusal {
            number: Refusal::LEFT_OVER,
            offset: at,
        });
    }
    Ok(at)
}

// The xid of a message inside a stream block; elsewhere 0, and no byte is read.
#[inline(always)]
#[tactic(auto, unfolding(message::specs::Layout::xid_field))]
pub fn block_xid(r: &mut Reader, in_block: bool) -> Result<u32, Refusal>
    ensures { Reads (xid_field in_block r.old.bytes.now r.old.next) r.old result r.new }
{
    if in_block {
        return fields::id(r);
    }
    r.next?;
    Ok(0)
}
