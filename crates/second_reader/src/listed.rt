// The numbers of a message's values: how they are listed and looked at.

ghost use Rattle.std.specs.Prelude.{◌≡◌, [], ◌∷◌, ◌++◌, length, take, drop, replicate, reverse, slice_index};
ghost use Rattle.second_reader.specs.Listed.{listed, unused};

use crate::Values;

const ROOM: usize = 16;

impl Values {
    pub fn new() -> Self
        ensures listed { listed result ≡ [] }
        ensures unused { unused result ≡ replicate 16 0 }
    {
        Values {
            count: 0,
            numbers: [0; 16],
        }
    }

    // As many of these as there is room for.
    pub fn of(numbers: &[u64]) -> Self
        ensures listed { listed result ≡ take 16 numbers.now }
        ensures unused { unused result ≡ drop (length numbers.now) (replicate 16 0) }
    {
        let mut values = Self::new();
        for number in numbers {
            values.push(*number);
        }
        values
    }

    // A value more, while there is room.
    pub fn push(&mut self, value: u64)
        ensures listed { listed self.new ≡ take 16 (listed self.old ++ value ∷ []) }
        ensures unused { unused self.new ≡ drop 1 (unused self.old) }
    {
        if self.count < ROOM {
            self.numbers[self.count] = value;
            self.count += 1;
        }
    }

    pub fn as_slice(&self) -> &[u64]
        ensures { result.now ≡ listed self.now }
    {
        &self.numbers[..self.count]
    }

    // The value that `back` others stand behind, and 0 where there is none.
    pub fn earlier(&self, back: usize) -> u64
        ensures { result ≡ slice_index (reverse (listed self.now)) back }
    {
        let values = self.as_slice();
        values.iter().rev().nth(back).copied().unwrap_or(0)
    }
}
