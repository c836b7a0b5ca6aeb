// A float's decimal text: the fewest digits that read back as the same float, laid out as PostgreSQL prints them. The digits are
// those of the crate `ryu`: where two are as close, std's `{}` takes the other one.
use ryu::Buffer;
use std::fmt;
use std::fmt::InlineText;

// The room for a float's text.
const LONGEST: usize = 32;

#[derive(Clone, Copy)]
pub struct Float4(pub f32);

#[derive(Clone, Copy)]
pub struct Float8(pub f64);

// What stands before a mark, and what stands behind it.
fn halves(text: &str, mark: char) -> (&str, &str) {
    match text.split_once(mark) {
        Some(parts) => parts,
        None => (text, ""),
    }
}

// The power of ten that the first digit of a positive number counts, from its text without a point, how many digits of it are before
// the point, and its exponent.
fn power_of(digits: &str, whole: usize, exponent: i16) -> i32 {
    let zeros = digits.bytes().take_while(|b| *b == b'0').count();
    let whole = whole.min(LONGEST) as i32;
    let zeros = zeros.min(LONGEST) as i32;
    i32::from(exponent) + whole - 1 - zeros
}

// A float that is not negative and finite, with the power of ten from which on its text has an exponent.
fn write_finite<W: fmt::Write>(f: &mut fmt::Formatter<W>, text: &str, long: i32) -> fmt::Result {
    let (number, exponent) = halves(text, 'e');
    let (whole, part) = halves(number, '.');
    let digits = InlineText::<LONGEST>::of(format_args!("{whole}{part}"));
    let digits = digits.as_str();
    let power = power_of(digits, whole.len(), exponent.parse().unwrap_or(0));
    if -4 <= power && power < long {
        return f.write_str(text.strip_suffix(".0").unwrap_or(text));
    }
    let digits = digits.trim_matches('0');
    let rest = digits.get(1..).unwrap_or("");
    let point = if rest.is_empty() { "" } else { "." };
    write!(f, "{digits:.1}{point}{rest}e{power:+03}")
}

// The text of a float that is no NaN.
fn write_float<W: fmt::Write>(f: &mut fmt::Formatter<W>, text: &str, long: i32) -> fmt::Result {
    let size = match text.strip_prefix('-') {
        Some(size) => {
            write!(f, "-")?;
            size
        }
        None => text,
    };
    if size == "inf" {
        write!(f, "Infinity")
    } else {
        write_finite(f, size, long)
    }
}

impl fmt::Display for Float4 {
    fn fmt<W: fmt::Write>(&self, f: &mut fmt::Formatter<W>) -> fmt::Result {
        write_float(f, Buffer::new().format(self.0), 6)
    }
}

impl fmt::Display for Float8 {
    fn fmt<W: fmt::Write>(&self, f: &mut fmt::Formatter<W>) -> fmt::Result {
        write_float(f, Buffer::new().format(self.0), 15)
    }
}
