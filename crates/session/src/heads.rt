// The head in the record: its numbers, in words.
ghost use Rattle.std.specs.Prelude.{◌≡◌, cond, leb};
ghost use Rattle.session.specs.Machine.{head_in, words_of};

use crate::Head;

const LIMIT: u64 = 0x1_0000_0000;

// A version that does not fit its number is none that there is.
fn version_in(x: u64) -> u32
    ensures { result ≡ cond (leb 4294967296 x) 0 x }
{
    u32::try_from(x).unwrap_or(0)
}

pub fn head_in(words: &[u64; 6]) -> Head
    ensures { result ≡ head_in words.now }
{
    Head {
        final_lsn: words[0],
        version: version_in(words[1]),
        current_xid: (words[2] % LIMIT) as u32,
        phase: (words[3] % LIMIT) as u32,
        changed: (words[4] % 65536) as u16,
        rows: (words[5] % 65536) as u16,
    }
}

pub fn words_of(head: Head, version: u64) -> [u64; 6]
    ensures { result ≡ words_of version head }
{
    [
        head.final_lsn,
        version,
        u64::from(head.current_xid),
        u64::from(head.phase),
        u64::from(head.changed),
        u64::from(head.rows),
    ]
}
