// What the binary values of a feed sum to.
use values::{Bits, Value};

// A float with the pattern that it is written as.
#[derive(Clone, Copy)]
struct Float {
    bits: u64,
    value: f64,
    is_subnormal: bool,
}

// Floats of one format: how many there are, how many of them are of each kind, and all patterns, exclusive-or.
#[derive(Clone, Copy, Default)]
struct Floats {
    count: usize,
    nans: usize,
    infinite: usize,
    subnormal: usize,
    negative: usize,
    bits: u64,
}

// Whole numbers: how many there are, and their sum in 64 bits.
#[derive(Clone, Copy, Default)]
struct Integers {
    count: usize,
    sum: i64,
}

// Whole numbers, floats of one format, times and how many bytes values of other types have; and how many values were refused, or written
// as something else.
#[derive(Drop)]
pub struct Sums {
    bools: Integers,
    int2s: Integers,
    int4s: Integers,
    int8s: Integers,
    float4s: Floats,
    float8s: Floats,
    times: Integers,
    least: i64,
    greatest: i64,
    raws: Integers,
    wrong: usize,
}

// The pattern that a number is written as.
fn bits_of(value: Value) -> u64 {
    match values::bits_of(value) {
        Bits::Number { number, .. } => number,
        Bits::Part { .. } => 0,
    }
}

// A NaN, as an operation makes it.
fn nan(bits: u64) -> Float {
    Float {
        bits,
        value: 0.0 / 0.0,
        is_subnormal: false,
    }
}

// One more, if it is so.
fn add_if(count: &mut usize, is_so: bool) {
    *count = count.saturating_add(usize::from(is_so));
}

fn print_sum(rt: &impl Print, Integers { count, sum }: Integers, what: &str) {
    let _ = println!(rt; "{count} {what} {sum}");
}

fn print_floats(rt: &impl Print, floats: Floats, name: &str) {
    let Floats {
        count,
        nans,
        infinite,
        subnormal,
        negative,
        bits,
    } = floats;
    let _ = println!(rt;
        "{count} {name}: {nans} NaN, {infinite} infinite, {subnormal} subnormal, {negative} below 0, all bits xor {bits}"
    );
}

impl Integers {
    fn add(&mut self, n: i64) {
        self.count = self.count.saturating_add(1);
        self.sum = self.sum.wrapping_add(n);
    }
}

impl Floats {
    fn add(&mut self, x: Float) {
        self.count = self.count.saturating_add(1);
        add_if(&mut self.nans, x.value.is_nan());
        add_if(&mut self.infinite, x.value.is_infinite());
        add_if(&mut self.subnormal, x.is_subnormal);
        add_if(&mut self.negative, x.value < 0.0);
        self.bits ^= x.bits;
    }
}

impl Sums {
    pub fn new() -> Sums {
        Sums {
            bools: Integers::default(),
            int2s: Integers::default(),
            int4s: Integers::default(),
            int8s: Integers::default(),
            float4s: Floats::default(),
            float8s: Floats::default(),
            times: Integers::default(),
            least: i64::MAX,
            greatest: i64::MIN,
            raws: Integers::default(),
            wrong: 0,
        }
    }

    fn add_time(&mut self, time: i64) {
        self.times.add(time);
        self.least = self.least.min(time);
        self.greatest = self.greatest.max(time);
    }

    pub fn add(&mut self, value: Value) {
        match value {
            Value::Bool(v) => self.bools.add(i64::from(v)),
            Value::Int2(v) => self.int2s.add(i64::from(v)),
            Value::Int4(v) => self.int4s.add(i64::from(v)),
            Value::Int8(v) => self.int8s.add(v),
            Value::Float4(x) => self.float4s.add(Float {
                bits: bits_of(value),
                value: std::num::f32_to_f64_with_nan(x),
                is_subnormal: x.is_subnormal(),
            }),
            Value::Float4Nan(bits) => self.float4s.add(nan(u64::from(bits))),
            Value::Float8(x) => self.float8s.add(Float {
                bits: bits_of(value),
                value: x,
                is_subnormal: x.is_subnormal(),
            }),
            Value::Float8Nan(bits) => self.float8s.add(nan(bits)),
            Value::TimestampTz(v) => self.add_time(v),
            Value::Raw { length, .. } => self.raws.add(length.cast_signed() as i64),
        }
    }

    // A value that was refused, or written as something else.
    pub fn add_wrong(&mut self) {
        self.wrong = self.wrong.saturating_add(1);
    }

    fn count(&self) -> usize {
        let floats = self.float4s.count.saturating_add(self.float8s.count);
        [
            self.bools, self.int2s, self.int4s, self.int8s, self.times, self.raws,
        ]
        .iter()
        .fold(floats, |count, numbers| count.saturating_add(numbers.count))
    }

    // Prints the sums of a feed that has any binary value.
    pub fn print(&self, rt: &impl Print) {
        if self.wrong != 0 {
            let _ = println!(rt;
                "{} values were refused, or written as something else",
                self.wrong
            );
        }
        if self.count() == 0 {
            return;
        }
        let _ = println!(rt; "{} binary values read and written back", self.count());
        print_sum(rt, self.bools, "bool, true:");
        print_sum(rt, self.int2s, "int2, sum");
        print_sum(rt, self.int4s, "int4, sum");
        print_sum(rt, self.int8s, "int8, sum");
        print_floats(rt, self.float4s, "float4");
        print_floats(rt, self.float8s, "float8");
        print_sum(rt, self.times, "timestamptz, sum");
        let _ = println!(rt; "times from {} to {}", self.least, self.greatest);
        print_sum(rt, self.raws, "of other types, bytes");
    }
}
