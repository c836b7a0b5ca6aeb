ghost use Rattle.writer.specs.Told.{Writes};
ghost use Rattle.capi.specs.Flat.{write_flat};

use crate::rows;
use message::Version;

// Writes the message of a flat form, whose parts lie in `source`, to the front of `out`.
#[unsafe(no_mangle)]
pub extern "C" fn kq_write(
    version: u32,
    in_block: u32,
    fields: &[u64; 16],
    source: &[u8],
    out: &mut [u8],
    res: &mut u64,
) -> u32
    ensures { Writes (write_flat version in_block fields.now source.now) out.old result res.new out.new }
{
    let version = Version { number: version };
    match rows::write_row(version, in_block != 0, fields, source, out) {
        Ok(n) => {
            *res = n as u64;
            0
        }
        Err(refusal) => {
            *res = refusal.offset as u64;
            refusal.number as u32
        }
    }
}
