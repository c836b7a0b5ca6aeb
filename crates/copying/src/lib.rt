#![tactic(auto)]
// Bytes copied in lent buffers: a number's digits or a part of another slice at the front of a buffer, and bytes of a buffer to a place
// before them. Where there is no room, nothing is copied.
ghost use Rattle.std.specs.Prelude.{◌≡◌, ◌+◌, ◌*◌, ◌≤◌, length};
ghost use Rattle.std.proofs.lemmas.List.Edits.{sets};
ghost use Rattle.message.specs.Encode.{digits, cut};
ghost use Rattle.copying.specs.Copies.{laid_in, moved_down};

// A number's digits at the front of a buffer.
fn lay_digits(tail: &mut [u8], width: usize, value: u64)
    requires { width ≤ length tail.old }
    ensures { tail.new ≡ sets tail.old 0 (digits width value) }
{
    let mut v = value;
    for k in (0..width).rev() {
        tail[k] = (v % 256) as u8;
        v /= 256;
    }
}

// The number whose digits are the eight bytes at `at`.
fn eight_at(part: &[u8], at: usize) -> u64
    requires { at + 8 ≤ length part.now }
    ensures { digits 8 result ≡ cut part.now at 8 }
{
    let mut v: u64 = 0;
    for k in 0..8 {
        v = v * 256 + u64::from(part[at + k]);
    }
    v
}

// Eight bytes of a part at their place in a buffer, in one load and one store.
fn lay_eight(tail: &mut [u8], part: &[u8], at: usize)
    requires { (at + 8 ≤ length part.now) × (at + 8 ≤ length tail.old) }
    ensures { tail.new ≡ sets tail.old at (cut part.now at 8) }
{
    let v = eight_at(part, at);
    lay_digits(&mut tail[at..], 8, v);
}

// `eights` times eight bytes.
fn lay_block(tail: &mut [u8], part: &[u8], at: usize, eights: usize)
    requires { (eights ≤ 4) × (at + 8 * eights ≤ length part.now) × (at + 8 * eights ≤ length tail.old) }
    ensures { tail.new ≡ sets tail.old at (cut part.now at (8 * eights)) }
{
    for k in 0..eights {
        lay_eight(tail, part, at + 8 * k);
    }
}

// A part that has room for a block, block by block; the last block ends where the part ends, over what was laid before.
fn lay_blocks(tail: &mut [u8], part: &[u8], eights: usize)
    requires { (1 ≤ eights) × (eights ≤ 4) × (8 * eights ≤ length part.now) × (length part.now ≤ length tail.old) }
    ensures { tail.new ≡ sets tail.old 0 part.now }
{
    let width = 8 * eights;
    let last = part.len() - width;
    // tried: `step_by`; each step then has a second test
    let mut i = 0;
    while i < last {
        lay_block(tail, part, i, eights);
        i += width;
    }
    lay_block(tail, part, last, eights);
}

// A part byte by byte.
fn lay_bytes(tail: &mut [u8], part: &[u8])
    requires { length part.now ≤ length tail.old }
    ensures { tail.new ≡ sets tail.old 0 part.now }
{
    for (i, byte) in part.iter().enumerate() {
        tail[i] = *byte;
    }
}

// A number of `width` bytes, the most significant first, at the front of a buffer. The test also keeps the stores of one number apart from
// those of the next, so that each becomes one store.
pub fn lay_number(tail: &mut [u8], width: usize, value: u64)
    ensures { tail.new ≡ laid_in tail.old (digits width value) }
{
    if width <= tail.len() {
        lay_digits(tail, width, value);
    }
}

// A part at the front of a buffer.
pub fn lay_part(tail: &mut [u8], part: &[u8])
    ensures { tail.new ≡ laid_in tail.old part.now }
{
    if tail.len() < part.len() {
        return;
    }
    if part.len() < 8 {
        lay_bytes(tail, part)
    } else if part.len() < 32 {
        lay_blocks(tail, part, 1)
    } else {
        lay_blocks(tail, part, 4)
    }
}

// `eights` times eight bytes from a place to one that is not behind it, from the first on: no byte is stored over before it is loaded.
fn move_eights(buffer: &mut [u8], to: usize, from: usize, eights: usize)
    requires { (to ≤ from) × (from + 8 * eights ≤ length buffer.old) }
    ensures { buffer.new ≡ sets buffer.old to (cut buffer.old from (8 * eights)) }
{
    for k in 0..eights {
        let v = eight_at(buffer, from + 8 * k);
        let at = to + 8 * k;
        lay_digits(&mut buffer[at..], 8, v);
    }
}

// `n` bytes alike, one by one.
fn move_bytes(buffer: &mut [u8], to: usize, from: usize, n: usize)
    requires { (to ≤ from) × (from + n ≤ length buffer.old) }
    ensures { buffer.new ≡ sets buffer.old to (cut buffer.old from n) }
{
    for i in 0..n {
        buffer[to + i] = buffer[from + i];
    }
}

// `n` bytes of a buffer from a place to one that is not behind it.
pub fn move_down(buffer: &mut [u8], to: usize, from: usize, n: usize)
    ensures { buffer.new ≡ moved_down buffer.old to from n }
{
    if to <= from && from <= buffer.len() && n <= buffer.len() - from {
        let eights = n / 8;
        let done = 8 * eights;
        move_eights(buffer, to, from, eights);
        move_bytes(buffer, to + done, from + done, n - done);
    }
}
