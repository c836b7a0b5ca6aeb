// What a value is to be, as numbers that a line spells or that are worked out of a pattern.
use crate::text::Text;
use values::Value;

// A number below 0 or not.
#[derive(Clone, Copy)]
pub struct Signed {
    pub negative: bool,
    pub value: u64,
}

// A letter that says which value, and a signed number or two: see `typed`.
#[derive(Clone, Copy)]
pub struct Want {
    pub letter: u8,
    pub first: Signed,
    pub second: Signed,
}

impl Signed {
    pub const ZERO: Signed = Signed {
        negative: false,
        value: 0,
    };

    // A decimal number that may have a minus, and 0 where there is none.
    fn read(text: &mut Text) -> Signed {
        text.skip_spaces();
        let negative = text.peek() == b'-';
        text.skip(negative as usize);
        Signed {
            negative,
            value: text.number(),
        }
    }

    // The number in 64 bits.
    fn bits(self) -> u64 {
        if self.negative {
            0u64.wrapping_sub(self.value)
        } else {
            self.value
        }
    }
}

// A number times 2, or half of it, so many times over.
fn scaled(number: f64, by: f64, times: u64) -> f64 {
    let mut x = number;
    for _ in 0..times {
        x *= by;
    }
    x
}

impl Want {
    // What a line says from here on.
    pub fn read(mut text: Text) -> Want {
        text.skip_spaces();
        let letter = text.peek();
        text.skip(1);
        Want {
            letter,
            first: Signed::read(&mut text),
            second: Signed::read(&mut text),
        }
    }

    // The first number times 2 to the power of the second.
    fn float(self) -> f64 {
        let by = if self.second.negative { 0.5 } else { 2.0 };
        let first = std::num::nearest_u64_to_f64(self.first.value);
        let x = scaled(first, by, self.second.value);
        if self.first.negative { -x } else { x }
    }

    // Whether a float is this one, the sign of a 0 included.
    fn is_float(self, x: f64) -> bool {
        let y = self.float();
        x == y && 1.0 / x == 1.0 / y
    }

    // Whether a value is the one that is wanted.
    pub fn is_value(self, value: Value) -> bool {
        let n = self.first.bits();
        match (self.letter, value) {
            (b'b', Value::Bool(b)) => u64::from(b) == n,
            (b's', Value::Int2(v)) => i64::from(v).cast_unsigned() == n,
            (b'i', Value::Int4(v)) => i64::from(v).cast_unsigned() == n,
            (b'l', Value::Int8(v)) | (b'z', Value::TimestampTz(v)) => v.cast_unsigned() == n,
            (b'f', Value::Float4(x)) => self.is_float(std::num::f32_to_f64_with_nan(x)),
            (b'd', Value::Float8(x)) => self.is_float(x),
            (b'F', Value::Float4Nan(bits)) => u64::from(bits) == n,
            (b'D', Value::Float8Nan(bits)) => bits == n,
            (b'r', Value::Raw { start, length }) => {
                start as u64 == n && length as u64 == self.second.value
            }
            _ => false,
        }
    }
}
