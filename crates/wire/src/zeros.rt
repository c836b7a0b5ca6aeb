// The search for a zero byte, eight bytes at once where eight are there.
ghost use Rattle.std.specs.Prelude.{◌≡◌, ◌+◌, ◌≤◌, length, take, drop};
ghost use Rattle.wire.specs.Fields.{member, until_zero};
ghost use Rattle.wire.specs.LowBytes.{low_bytes};

// 01 in each byte.
const UNITS: u64 = 0x0101_0101_0101_0101;

// 80 in each byte.
const TOP_BITS: u64 = 0x8080_8080_8080_8080;

// The number that eight bytes from `at` on spell, the first the least significant.
fn eight_at(s: &[u8], at: usize) -> u64
    requires { at + 8 ≤ length s.now }
    ensures { low_bytes 8 result ≡ take 8 (drop at s.now) }
{
    u64::from_le_bytes([
        s[at],
        s[at + 1],
        s[at + 2],
        s[at + 3],
        s[at + 4],
        s[at + 5],
        s[at + 6],
        s[at + 7],
    ])
}

// Whether one of the eight bytes of a number is zero. The difference and the complement both have a byte's top bit at the lowest zero byte,
// and at no byte below it, from which nothing is borrowed.
fn has_zero_byte(n: u64) -> bool
    ensures { result ≡ member (low_bytes 8 n) 0 }
{
    let less = std::num::wrapping_sub_u64(n, UNITS);
    (less & (u64::MAX - n) & TOP_BITS) != 0
}

// Past every eight bytes from `at` on that have no zero among them.
fn skip_eights(s: &[u8], at: usize) -> usize
    ensures { result + until_zero (drop result s.now) ≡ at + until_zero (drop at s.now) }
{
    if s.len() < 8 {
        return at;
    }
    let last = s.len() - 8;
    // tried: a `for` over how many eights there are; Relations with short names then took a tenth longer to read
    let mut i = at;
    while i <= last {
        if has_zero_byte(eight_at(s, i)) {
            return i;
        }
        i += 8;
    }
    i
}

// The index of the first zero byte from `at` on, or the length.
pub fn zero_from(s: &[u8], at: usize) -> usize
    ensures { result ≡ at + until_zero (drop at s.now) }
{
    let start = skip_eights(s, at);
    for i in start..s.len() {
        if s[i] == 0 {
            return i;
        }
    }
    start.max(s.len())
}
