// Reads patterns of every type that has numbers, and writes them back: all of a bool and of an int2; of the others every sign and exponent
// of a float of that width, with some patterns of the bits behind. What a pattern stands for is worked out here.
use crate::wanted::{Signed, Want};
use crate::{Tally, everywhere, text};
use columns::{Position, Step};
use second_reader::Reason;
use wire::Refusal;

// A type: its OID, its letter as in `typed`, how many bytes its values have, and how many patterns are tried of the bits in front and of
// those behind.
#[derive(Clone, Copy)]
struct Sweep {
    name: &'static str,
    type_oid: u32,
    letter: u8,
    width: u8,
    fronts: u64,
    behinds: usize,
}

const SWEEPS: [Sweep; 7] = [
    Sweep {
        name: "every bool",
        type_oid: 16,
        letter: b'b',
        width: 1,
        fronts: 256,
        behinds: 1,
    },
    Sweep {
        name: "every int2",
        type_oid: 21,
        letter: b's',
        width: 2,
        fronts: 65536,
        behinds: 1,
    },
    Sweep {
        name: "int4",
        type_oid: 23,
        letter: b'i',
        width: 4,
        fronts: 512,
        behinds: 6,
    },
    Sweep {
        name: "int8",
        type_oid: 20,
        letter: b'l',
        width: 8,
        fronts: 4096,
        behinds: 6,
    },
    Sweep {
        name: "float4 of every sign and exponent",
        type_oid: 700,
        letter: b'f',
        width: 4,
        fronts: 512,
        behinds: 6,
    },
    Sweep {
        name: "float8 of every sign and exponent",
        type_oid: 701,
        letter: b'd',
        width: 8,
        fronts: 4096,
        behinds: 6,
    },
    Sweep {
        name: "timestamptz",
        type_oid: 1184,
        letter: b'z',
        width: 8,
        fronts: 4096,
        behinds: 6,
    },
];

// A format of floats: the largest exponent, the digit in front that a number has unless its exponent is 0, and by which power of 2 the
// last digit of those is smaller than 1.
#[derive(Clone, Copy)]
struct Format {
    most: u64,
    front: u64,
    down: u64,
}

const FLOAT4: Format = Format {
    most: 255,
    front: 0x80_0000,
    down: 149,
};

const FLOAT8: Format = Format {
    most: 2047,
    front: 0x10_0000_0000_0000,
    down: 1074,
};

// Bits behind, of which a float8 has 52 and a float4 the first 23: none, the last alone, all, a quiet NaN's alone, all but that, and a
// mixture.
const BEHIND: [u64; 6] = [
    0,
    1,
    0xF_FFFF_FFFF_FFFF,
    0x8_0000_0000_0000,
    0x7_FFFF_FFFF_FFFF,
    0x9_1A2B_3C4D_5E6F,
];

// The pattern with these bits in front and behind.
fn pattern(width: u8, front: u64, behind: u64) -> u64 {
    match width {
        4 => (front << 23) | (behind >> 29) | (behind & 1),
        8 => (front << 52) | behind,
        _ => front,
    }
}

// A column whose value has so many bytes, which spell a number.
fn column(width: u8, number: u64) -> [u8; 13] {
    let n = match width {
        1 => number << 56,
        2 => number << 48,
        4 => number << 32,
        _ => number,
    };
    let mut c = *b"b\x00\x00\x00\x00\x00\x00\x00\x00\x00\x00\x00\x00";
    c[4] = width;
    c[5..].copy_from_slice(&n.to_be_bytes());
    c
}

fn number(letter: u8, negative: bool, value: u64) -> Want {
    Want {
        letter,
        first: Signed { negative, value },
        second: Signed::ZERO,
    }
}

// A pattern whose numbers below 0 are those from `half` on.
fn signed(letter: u8, pattern: u64, half: u64) -> Want {
    if pattern < half {
        return number(letter, false, pattern);
    }
    let all = half.wrapping_add(half);
    number(letter, true, all.wrapping_sub(pattern))
}

// A number times a power of 2, which is below 1 as long as `up` is less than `down`.
fn scaled(letter: u8, negative: bool, value: u64, up: u64, down: u64) -> Want {
    Want {
        letter,
        first: Signed { negative, value },
        second: Signed {
            negative: up < down,
            value: up.abs_diff(down),
        },
    }
}

// A float with a sign and exponent in front. A NaN's letter is the float's, in capitals.
fn float(letter: u8, pattern: u64, front: u64, behind: u64, format: Format) -> Want {
    let negative = format.most < front;
    let exponent = front & format.most;
    if exponent == 0 {
        return scaled(letter, negative, behind, 0, format.down);
    }
    if exponent < format.most {
        let digits = behind | format.front;
        return scaled(letter, negative, digits, exponent - 1, format.down);
    }
    if behind == 0 {
        return scaled(letter, negative, 1, 1024, 0);
    }
    number(letter.to_ascii_uppercase(), false, pattern)
}

// What a pattern stands for.
fn meant(letter: u8, pattern: u64) -> Want {
    match letter {
        b's' => signed(letter, pattern, 0x8000),
        b'i' => signed(letter, pattern, 0x8000_0000),
        b'l' | b'z' => signed(letter, pattern, 0x8000_0000_0000_0000),
        b'f' => float(letter, pattern, pattern >> 23, pattern & 0x7F_FFFF, FLOAT4),
        b'd' => float(
            letter,
            pattern,
            pattern >> 52,
            pattern & 0xF_FFFF_FFFF_FFFF,
            FLOAT8,
        ),
        _ => number(letter, false, pattern),
    }
}

// Whether a pattern is read as what it stands for, and a bool of 2 or more refused, as the second reader has it, and written back.
fn is_read(sweep: Sweep, pattern: u64) -> bool {
    let Sweep {
        type_oid,
        letter,
        width,
        ..
    } = sweep;
    let column = column(width, pattern);
    let bytes = text::front(&column, 5 + width as usize);
    let is_bad = letter == b'b' && 1 < pattern;
    let front = Position { offset: 0, left: 1 };
    let Step { item, .. } = values::typed_step(bytes, front, type_oid);
    let is_right = match item {
        Ok(Some(value)) => !is_bad && meant(letter, pattern).is_value(value),
        Ok(None) => false,
        Err(Refusal { number, offset }) => {
            is_bad && number == Reason::Value.number() && offset == 5
        }
    };
    is_right && everywhere::agrees(bytes, front, type_oid)
}

fn run_behind(tally: &mut Tally, sweep: Sweep, front: u64) {
    for behind in BEHIND.iter().take(sweep.behinds) {
        tally.count(is_read(sweep, pattern(sweep.width, front, *behind)));
    }
}

fn run_type(rt: &impl Print, sweep: Sweep) {
    let mut tally = Tally::default();
    for front in 0..sweep.fronts {
        run_behind(&mut tally, sweep, front);
    }
    let name = sweep.name;
    let _ = println!(rt; "values, {name}: {tally}");
}

pub fn run(rt: &impl Print) {
    for sweep in SWEEPS {
        run_type(rt, sweep);
    }
}
