ghost use Rattle.std.specs.Prelude.{◌≡◌, [], ◌∷◌};
ghost use Rattle.message.specs.Messages.{read_message};
ghost use Rattle.capi.specs.Flat.{flat, row, read_flat, read_number, read_row};

use crate::flat;
use message::{Begin, Commit, Delete, Insert, Message, Update, Version};
use reader::Common;
use wire::Refusal;

fn put_refusal(out: &mut [u64; 16], refusal: Refusal) -> u32
    ensures { (result ≡ refusal.number) × (out.new ≡ row (refusal.offset ∷ [])) }
{
    *out = [0; 16];
    out[0] = refusal.offset as u64;
    refusal.number as u32
}

// The row of what was read, and the number that is returned.
fn put(out: &mut [u64; 16], read: Result<Message, Refusal>) -> u32
    ensures { (result ≡ read_number read) × (out.new ≡ read_row read) }
{
    match read {
        Ok(m) => {
            flat::flatten(out, m);
            0
        }
        Err(refusal) => put_refusal(out, refusal),
    }
}

// A kind of most messages: what was read of it is laid straight into its row, with no enum of all kinds between. The result is matched
// whole: handed on in parts it is copied once more.
trait Laid: Common {
    fn put(out: &mut [u64; 16], read: Result<Message, Refusal>) -> u32
        ensures { (result ≡ read_number read) × (out.new ≡ read_row read) };
}

impl Laid for Insert {
    fn put(out: &mut [u64; 16], read: Result<Message, Refusal>) -> u32 {
        match read {
            Ok(Message::Insert(m)) => {
                flat::flatten_insert(out, m);
                0
            }
            _ => put(out, read),
        }
    }
}

impl Laid for Update {
    fn put(out: &mut [u64; 16], read: Result<Message, Refusal>) -> u32 {
        match read {
            Ok(Message::Update(m)) => {
                flat::flatten_update(out, m);
                0
            }
            _ => put(out, read),
        }
    }
}

impl Laid for Delete {
    fn put(out: &mut [u64; 16], read: Result<Message, Refusal>) -> u32 {
        match read {
            Ok(Message::Delete(m)) => {
                flat::flatten_delete(out, m);
                0
            }
            _ => put(out, read),
        }
    }
}

impl Laid for Begin {
    fn put(out: &mut [u64; 16], read: Result<Message, Refusal>) -> u32 {
        match read {
            Ok(Message::Begin(m)) => {
                flat::flatten_begin(out, m);
                0
            }
            _ => put(out, read),
        }
    }
}

impl Laid for Commit {
    fn put(out: &mut [u64; 16], read: Result<Message, Refusal>) -> u32 {
        match read {
            Ok(Message::Commit(m)) => {
                flat::flatten_commit(out, m);
                0
            }
            _ => put(out, read),
        }
    }
}

// Reads a message with a kind tried first. Each kind has a call of its own: room for what is read is cleared at the start of a function,
// for all kinds of it.
#[inline(never)]
fn read_expected<M: Laid>(
    version: Version,
    in_block: bool,
    bytes: &[u8],
    out: &mut [u64; 16],
) -> u32
    ensures { (result ≡ read_number (read_message version in_block bytes.now)) × (out.new ≡ read_row (read_message version in_block bytes.now)) }
{
    M::put(out, reader::expecting::<M>(version, in_block, bytes))
}

// Reads any other message.
#[inline(never)]
fn read_other(version: Version, in_block: bool, bytes: &[u8], out: &mut [u64; 16]) -> u32
    ensures { (result ≡ read_number (read_message version in_block bytes.now)) × (out.new ≡ read_row (read_message version in_block bytes.now)) }
{
    put(out, reader::read_message(version, in_block, bytes))
}

// Reads one message.
#[unsafe(no_mangle)]
pub extern "C" fn kq_read(version: u32, in_block: u32, bytes: &[u8], out: &mut [u64; 16]) -> u32
    ensures { (result ≡ read_number (read_flat version in_block bytes.now)) × (out.new ≡ read_row (read_flat version in_block bytes.now)) }
{
    let version = Version { number: version };
    let in_block = in_block != 0;
    if bytes.len() == 0 {
        return read_other(version, in_block, bytes, out);
    }
    match bytes[0] {
        b'I' => read_expected::<Insert>(version, in_block, bytes, out),
        b'U' => read_expected::<Update>(version, in_block, bytes, out),
        b'D' => read_expected::<Delete>(version, in_block, bytes, out),
        b'B' => read_expected::<Begin>(version, in_block, bytes, out),
        b'C' => read_expected::<Commit>(version, in_block, bytes, out),
        _ => read_other(version, in_block, bytes, out),
    }
}
