// What is one byte away from a message, and the message at other versions and places.

ghost use Rattle.std.specs.Prelude.{◌<◌, length};

use crate::answers::Place;
use crate::text::Bytes;
use crate::{Tally, readers};

// The bytes that are put in: numbers at the edges, and every letter that a layout has.
const BYTES: [u8; 35] = *b"\x00\x01\x02\x03\x04\x06\x07\x08\x40\x7F\x80\xFFABCDEIKMNORSTUYbcdfintu";

const KNOWN: [Place; 3] = [
    Place {
        version: 1,
        in_block: false,
    },
    Place {
        version: 2,
        in_block: false,
    },
    Place {
        version: 2,
        in_block: true,
    },
];

pub const VERSIONS: [u32; 5] = [0, 1, 2, 3, 0xFFFF_FFFF];

// At a place, with any answer.
fn run_at(rt: &impl Print, tally: &mut Tally, place: Place, bytes: &[u8]) {
    let is_agreed = readers::is_read(rt, place, bytes, b"");
    tally.count(is_agreed && readers::is_stepped(rt, place, bytes));
}

fn run_at_known_versions(rt: &impl Print, tally: &mut Tally, bytes: &[u8]) {
    for place in KNOWN {
        run_at(rt, tally, place, bytes);
    }
}

pub fn run_at_every_version(rt: &impl Print, tally: &mut Tally, bytes: &[u8]) {
    for version in VERSIONS {
        let outside = Place {
            version,
            in_block: false,
        };
        let inside = Place {
            version,
            in_block: true,
        };
        run_at(rt, tally, outside, bytes);
        run_at(rt, tally, inside, bytes);
    }
}

pub fn run_cut_short(rt: &impl Print, tally: &mut Tally, bytes: &[u8]) {
    for size in 0..bytes.len() {
        run_at_known_versions(rt, tally, &bytes[..size]);
    }
}

pub fn run_longer(rt: &impl Print, tally: &mut Tally, message: &mut Bytes) {
    for b in BYTES {
        if message.try_push(b).is_ok() {
            run_at_known_versions(rt, tally, message.as_slice());
            message.pop();
        }
    }
}

fn run_changed_at(rt: &impl Print, tally: &mut Tally, message: &mut [u8], at: usize)
    requires { at < length message.old }
{
    let before = message[at];
    for b in BYTES {
        message[at] = b;
        run_at_known_versions(rt, tally, message);
    }
    message[at] = before;
}

pub fn run_changed(rt: &impl Print, tally: &mut Tally, message: &mut [u8]) {
    for at in 0..message.len() {
        run_changed_at(rt, tally, message, at);
    }
}
