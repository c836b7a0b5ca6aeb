// A key's place among sorted keys, by nine looks at most.
ghost use Rattle.std.specs.Prelude.{◌≡◌, ◌&&◌, ◌≤◌, ◌+◌, ◌/◌, eqb, ltb, get_or};
ghost use Rattle.catalog.specs.Table.{key_of, looked, seek};

use crate::ROWS;

// How far a holder stands from the next in a key.
pub const HOLDER: u64 = 0x1_0000_0000;

pub fn key_of(holder: u32, oid: u32) -> u64
    ensures { result ≡ key_of holder oid }
{
    u64::from(holder) * HOLDER + u64::from(oid)
}

// One look: where the search goes on, with half of the places left.
fn look(keys: &[u64; ROWS], key: u64, base: usize, size: usize) -> usize
    requires { base + size ≤ 256 }
    ensures place { result ≡ looked (λ i. get_or keys.now i 0) key base size }
    ensures fits { result + size / 2 ≤ 256 }
{
    if size == 0 {
        return base;
    }
    let mid = base + (size - 1) / 2;
    if keys[mid] < key { mid + 1 } else { base }
}

// The looks stand one by one, here and in `search`: in a `for` over them each is compiled to a jump, which is a guess and slower
// (docs/PERFORMANCE.md, request 114).
fn four_looks(keys: &[u64; ROWS], key: u64, base: usize, size: usize) -> usize
    requires { base + size ≤ 256 }
    ensures { result ≡ seek 4 (λ i. get_or keys.now i 0) key base size }
{
    let b1 = look(keys, key, base, size);
    let s1 = size / 2;
    let b2 = look(keys, key, b1, s1);
    let s2 = s1 / 2;
    let b3 = look(keys, key, b2, s2);
    let s3 = s2 / 2;
    look(keys, key, b3, s3)
}

// The first of `size` places from `from` on whose key is not below `key`. Four looks are enough for fewer than 16.
pub fn search(keys: &[u64; ROWS], from: usize, size: usize, key: u64) -> usize
    requires { from + size ≤ 256 }
    ensures { result ≡ seek 9 (λ i. get_or keys.now i 0) key from size }
{
    if size < 16 {
        return four_looks(keys, key, from, size);
    }
    let b1 = look(keys, key, from, size);
    let s1 = size / 2;
    let b2 = look(keys, key, b1, s1);
    let s2 = s1 / 2;
    let b3 = look(keys, key, b2, s2);
    let s3 = s2 / 2;
    let b4 = look(keys, key, b3, s3);
    let s4 = s3 / 2;
    let b5 = look(keys, key, b4, s4);
    let s5 = s4 / 2;
    four_looks(keys, key, b5, s5)
}

// Whether a place before `end` has the key.
pub fn is_at(keys: &[u64; ROWS], at: usize, end: usize, key: u64) -> bool
    requires { end ≤ 256 }
    ensures { result ≡ ltb at end && eqb (get_or keys.now at 0) key }
{
    at < end && keys[at] == key
}
