// A range of the rows: `size` of them from `from` on, the rows of one table, and `behind` rows of others behind it.
ghost use Rattle.std.specs.Prelude.{◌≡◌, ◌≤◌, ◌+◌, ◌-◌, min};

use crate::ROWS;

#[derive(Clone, Copy)]
pub struct Range {
    pub from: usize,
    pub size: usize,
    pub behind: usize,
    pub ghost fits: { from + size + behind ≤ 256 },
}

impl Range {
    // Numbers that go past the rows end with them.
    pub fn clamped(from: u16, size: u16, behind: u16) -> Range
        ensures from { result.from ≡ min from 256 }
        ensures size { result.size ≡ min size (256 - result.from) }
        ensures behind { result.behind ≡ min behind (256 - result.from - result.size) }
    {
        let from = usize::from(from).min(ROWS);
        let size = usize::from(size).min(ROWS - from);
        let behind = usize::from(behind).min(ROWS - from - size);
        Range { from, size, behind }
    }

    pub fn with_size(self, size: usize) -> Range
        requires { self.from + size + self.behind ≤ 256 }
        ensures from { result.from ≡ self.from }
        ensures size { result.size ≡ size }
        ensures behind { result.behind ≡ self.behind }
    {
        Range {
            from: self.from,
            size,
            behind: self.behind,
        }
    }

    // Where the rows end that are in use.
    pub fn end(self) -> usize
        ensures { result ≡ self.from + self.size + self.behind }
    {
        self.from + self.size + self.behind
    }
}
