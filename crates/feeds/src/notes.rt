// What a message got, to be compared with what it gets when blocks have changed places.
use crate::giving::{Given, Sessions};
use session::Answer;

// Its answer with a keeper, how many bytes it released, their checksum, and whether the answer without is the same.
#[derive(Clone, Copy, PartialEq)]
pub struct Note {
    pub answer: Answer,
    released: usize,
    checksum: u64,
    is_same: bool,
}

// Each byte, added to 31 times the checksum of those before it.
fn checksum(bytes: &[u8]) -> u64 {
    bytes.iter().fold(0u64, |total, byte| {
        total.wrapping_mul(31).wrapping_add(u64::from(*byte))
    })
}

impl Note {
    pub fn of(sessions: &Sessions, given: Given) -> Note {
        Note {
            answer: given.keeping,
            released: given.released,
            checksum: checksum(sessions.released(given)),
            is_same: given.keeping == given.alone,
        }
    }
}
