// Single fields, and what is made of them.

ghost use Rattle.std.specs.Prelude.{◌≡◌, ◌+◌, ◌≤◌, true, length, IfOk};
ghost use Rattle.second_reader.specs.Bounds.{number_of, Advanced, Tupled};

use crate::{Reason, Refused};

const MOST_COLUMNS: u64 = 1600;

const MOST_RELATIONS: u64 = 256;

// Where the next field starts, and what was found: a number, a letter, or how many bytes or columns. Of several fields
// it is their sum.
#[derive(Clone, Copy, PartialEq, Eq)]
pub struct Step {
    pub at: usize,
    pub value: u64,
}

// The end of the tuple, its columns and the bytes of its values.
#[derive(Clone, Copy, PartialEq, Eq)]
pub struct Tuple {
    pub end: usize,
    pub columns: usize,
    pub value_bytes: usize,
}

impl Step {
    // This step and the one from there.
    fn then(self, step: Step) -> Step
        ensures { result.at ≡ step.at }
    {
        Step {
            at: step.at,
            value: self.value.wrapping_add(step.value),
        }
    }
}

pub fn big_endian(bytes: &[u8]) -> u64 {
    bytes
        .iter()
        .fold(0, |value, b| (value << 8) | u64::from(*b))
}

fn width_of(code: u8) -> usize
    ensures { result ≤ 8 }
{
    match code {
        b'q' => 8,
        b'i' | b'w' | b'r' => 4,
        b'c' => 2,
        _ => 1,
    }
}

fn may_hold(code: u8, value: u64) -> bool
    ensures { code ≡ 99 → result ≡ true → value ≤ 1600 }
{
    match code {
        b'i' => value != 0,
        b'0' => value == 0,
        b'1' => value <= 1,
        b'3' => value <= 3,
        b'c' => value <= MOST_COLUMNS,
        b'r' => value != 0 && value <= MOST_RELATIONS,
        b'd' => is_among(b"dnfi", value),
        b'K' => is_among(b"KO", value),
        b'N' => is_among(b"N", value),
        _ => true,
    }
}

fn is_among(letters: &[u8], value: u64) -> bool {
    letters.iter().any(|letter| u64::from(*letter) == value)
}

fn reason_of(code: u8) -> Reason
    ensures { number_of result ≤ 6 }
{
    match code {
        b'c' | b'r' => Reason::Range,
        _ => Reason::Field,
    }
}

// A field of one number or letter.
pub fn number(s: &[u8], at: usize, code: u8) -> Result<Step, Refused>
    requires { at ≤ length s.now }
    ensures advanced { Advanced at (length s.now) result }
    ensures value_bound { code ≡ 99 → IfOk result (λ step. step.value ≤ 1600) }
{
    let width = width_of(code);
    if s.len() - at < width {
        return Err(Reason::Short.at(at));
    }
    let end = at + width;
    let value = big_endian(&s[at..end]);
    if !may_hold(code, value) {
        return Err(reason_of(code).at(at));
    }
    Ok(Step { at: end, value })
}

// A text, its zero byte included.
pub fn text(s: &[u8], at: usize) -> Result<Step, Refused>
    requires { at ≤ length s.now }
    ensures { Advanced at (length s.now) result }
{
    match s[at..].iter().position(|b| *b == 0) {
        Some(size) => Ok(Step {
            at: at + size + 1,
            value: size as u64,
        }),
        None => Err(Reason::Short.at(at)),
    }
}

// A length and that many bytes.
pub fn sized(s: &[u8], at: usize) -> Result<Step, Refused>
    requires { at ≤ length s.now }
    ensures advanced { Advanced at (length s.now) result }
    ensures value_bound { IfOk result (λ step. at + step.value ≤ step.at) }
{
    let Step { at: start, value } = number(s, at, b'w')?;
    let size = value as usize;
    if 0x7FFF_FFFF < size {
        return Err(Reason::Field.at(at));
    }
    if s.len() - start < size {
        return Err(Reason::Short.at(start));
    }
    Ok(Step {
        at: start + size,
        value,
    })
}

// A column of a tuple.
fn column(s: &[u8], at: usize) -> Result<Step, Refused>
    requires { at ≤ length s.now }
    ensures advanced { Advanced at (length s.now) result }
    ensures value_bound { IfOk result (λ step. at + step.value ≤ step.at) }
{
    match s.get(at) {
        None => Err(Reason::Short.at(at)),
        Some(b'n' | b'u') => Ok(Step {
            at: at + 1,
            value: 0,
        }),
        Some(b't' | b'b') => sized(s, at + 1),
        Some(_) => Err(Reason::Field.at(at)),
    }
}

// A field that is no tuple.
fn plain(s: &[u8], at: usize, code: u8) -> Result<Step, Refused>
    requires { at ≤ length s.now }
    ensures { Advanced at (length s.now) result }
{
    match code {
        b's' => text(s, at),
        b'v' => sized(s, at),
        b't' => column(s, at),
        _ => number(s, at, code),
    }
}

// The tuple that starts at `start` with its count.
pub fn read_tuple(s: &[u8], start: usize) -> Result<Tuple, Refused>
    ensures { Tupled start (length s.now) result }
{
    if s.len() < start {
        return Err(Reason::Short.at(start));
    }
    let count = number(s, start, b'c')?;
    let columns = count.value as usize;
    let mut end = count.at;
    let mut value_bytes: usize = 0;
    for _ in 0..columns {
        let step = column(s, end)?;
        value_bytes += step.value as usize;
        end = step.at;
    }
    Ok(Tuple {
        end,
        columns,
        value_bytes,
    })
}

// Fields whose values are not kept, only summed.
fn passed(s: &[u8], from: usize, codes: &[u8]) -> Result<Step, Refused>
    requires { from ≤ length s.now }
    ensures { Advanced from (length s.now) result }
{
    let mut sum = Step { at: from, value: 0 };
    for code in codes {
        sum = sum.then(plain(s, sum.at, *code)?);
    }
    Ok(sum)
}

// Such fields, several times over.
pub fn repeated(s: &[u8], from: usize, codes: &[u8], times: u64) -> Result<Step, Refused>
    requires { from ≤ length s.now }
    ensures { Advanced from (length s.now) result }
{
    let mut sum = Step { at: from, value: 0 };
    for _ in 0..times {
        sum = sum.then(passed(s, sum.at, codes)?);
    }
    Ok(sum)
}
