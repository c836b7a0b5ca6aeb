// The rows of the announcements. A table is a range of them, sorted by key, and rows of others may follow.
ghost use Rattle.std.specs.Prelude.{◌≡◌, cond, ◌++◌, ◌<◌, ◌≤◌, ◌+◌, length, set, get_or, take};
ghost use Rattle.catalog.specs.Table.{row_list, no_row, held_by, over, part, room_beside, Leaves, seen_in, has_in, insert_at, put_row, dropped, released, common_row};

use crate::announcements::{Announcement, Announcements};
use crate::range::Range;
use crate::{ROWS, search};

// A row: its key, and what was announced.
#[derive(Clone, Copy)]
pub struct Row {
    pub key: u64,
    pub tag: u64,
    pub identity: u8,
    pub columns: u16,
}

impl Row {
    fn is_held_by(&self, t: u32) -> bool
        ensures { result ≡ held_by t self.now }
    {
        self.key / search::HOLDER == u64::from(t)
    }

    fn made_common(self) -> Row
        ensures { result ≡ common_row self }
    {
        Row {
            key: self.key % search::HOLDER,
            ..self
        }
    }
}

impl Announcements {
    // The announcement with a key.
    pub fn find_row(&self, range: Range, key: u64) -> Option<Announcement>
        ensures { result ≡ seen_in key (part range.from range.size (row_list self.now)) }
    {
        let at = search::search(&self.keys, range.from, range.size, key);
        if search::is_at(&self.keys, at, range.from + range.size, key) {
            Some(Announcement {
                tag: self.tags[at],
                identity: self.identities[at],
                columns: self.columns[at],
            })
        } else {
            None
        }
    }

    // Whether there is one.
    pub fn has_key(&self, range: Range, key: u64) -> bool
        ensures { result ≡ has_in key (part range.from range.size (row_list self.now)) }
    {
        let at = search::search(&self.keys, range.from, range.size, key);
        search::is_at(&self.keys, at, range.from + range.size, key)
    }

    #[tactic(auto, using(crate::proofs::Columns::rows_at))]
    fn row_at(&self, i: usize) -> Row
        requires { i < 256 }
        ensures { result ≡ get_or (row_list self.now) i no_row }
    {
        Row {
            key: self.keys[i],
            tag: self.tags[i],
            identity: self.identities[i],
            columns: self.columns[i],
        }
    }

    #[tactic(auto, using(crate::proofs::Columns::rows_set))]
    fn store(&mut self, at: usize, row: Row)
        requires { at < 256 }
        ensures { row_list self.new ≡ set (row_list self.old) at row }
    {
        self.keys[at] = row.key;
        self.tags[at] = row.tag;
        self.identities[at] = row.identity;
        self.columns[at] = row.columns;
    }

    // Moves the rows from `at` to n one place on, and stores one there.
    fn insert(&mut self, at: usize, n: usize, row: Row)
        requires ordered { at ≤ n }
        requires within { n < 256 }
        ensures { row_list self.new ≡ over (insert_at at row (take n (row_list self.old))) (row_list self.old) }
    {
        let mut held = row;
        for i in at..n {
            let next = self.row_at(i);
            self.store(i, held);
            held = next;
        }
        self.store(n, held);
    }

    // Puts a row in the place of the one with its key, else between its neighbours; where there is no room nothing changes. How many rows
    // the table then has.
    pub fn put_row(&mut self, range: Range, row: Row) -> usize
        ensures { Leaves range.from range.size range.behind (put_row (room_beside range.from range.size range.behind (row_list self.old)) row (part range.from range.size (row_list self.old))) result (row_list self.old) (row_list self.new) }
    {
        let at = search::search(&self.keys, range.from, range.size, row.key);
        if search::is_at(&self.keys, at, range.from + range.size, row.key) {
            self.store(at, row);
            return range.size;
        }
        let n = range.end();
        if n < ROWS {
            self.insert(at, n, row);
            return range.size + 1;
        }
        range.size
    }

    // Lays the row at i down at `to`.
    fn move_row(&mut self, i: usize, to: usize)
        requires ordered { to ≤ i }
        requires within { i < 256 }
        ensures { row_list self.new ≡ set (row_list self.old) to (get_or (row_list self.old) i no_row) }
    {
        let row = self.row_at(i);
        self.store(to, row);
    }

    // Lays the row at i down at `kept` unless it is one of t's. Where the next one then goes.
    fn keep(&mut self, i: usize, kept: usize, t: u32) -> usize
        requires ordered { kept ≤ i }
        requires within { i < 256 }
        ensures next { result ≡ cond (held_by t (get_or (row_list self.old) i no_row)) kept (kept + 1) }
        ensures rows { row_list self.new ≡ cond (held_by t (get_or (row_list self.old) i no_row)) (row_list self.old) (set (row_list self.old) kept (get_or (row_list self.old) i no_row)) }
    {
        let row = self.row_at(i);
        if row.is_held_by(t) {
            return kept;
        }
        self.store(kept, row);
        kept + 1
    }

    // Drops the rows of t; the others of the table move up. Where they then end.
    fn keep_others(&mut self, range: Range, t: u32) -> usize
        ensures end { result ≡ range.from + length (dropped t (part range.from range.size (row_list self.old))) }
        ensures rows { row_list self.new ≡ over (take range.from (row_list self.old) ++ dropped t (part range.from range.size (row_list self.old))) (row_list self.old) }
    {
        let mut kept = range.from;
        for i in range.from..range.from + range.size {
            kept = self.keep(i, kept, t);
        }
        kept
    }

    // Moves n rows from `from` on to `to`, which is no later.
    fn move_rows(&mut self, to: usize, from: usize, n: usize)
        requires ordered { to ≤ from }
        requires within { from + n ≤ 256 }
        ensures { row_list self.new ≡ over (take to (row_list self.old) ++ part from n (row_list self.old)) (row_list self.old) }
    {
        for k in 0..n {
            self.move_row(from + k, to + k);
        }
    }

    // Drops the rows of t, and moves up those behind the table. How many rows the table then has.
    pub fn drop_rows(&mut self, range: Range, t: u32) -> usize
        ensures { Leaves range.from range.size range.behind (dropped t (part range.from range.size (row_list self.old))) result (row_list self.old) (row_list self.new) }
    {
        let kept = self.keep_others(range, t);
        self.move_rows(kept, range.from + range.size, range.behind);
        kept - range.from
    }

    // Puts a row as a common one if it is one of t's. How many rows the table then has.
    fn put_held(&mut self, range: Range, row: Row, t: u32) -> usize
        ensures { Leaves range.from range.size range.behind (cond (held_by t row) (put_row (room_beside range.from range.size range.behind (row_list self.old)) (common_row row) (part range.from range.size (row_list self.old))) (part range.from range.size (row_list self.old))) result (row_list self.old) (row_list self.new) }
    {
        if row.is_held_by(t) {
            return self.put_row(range, row.made_common());
        }
        range.size
    }

    // Makes the rows of t common: they are dropped, and put again from a copy. How many rows the table then has.
    pub fn release_rows(&mut self, range: Range, t: u32) -> usize
        ensures { Leaves range.from range.size range.behind (released (room_beside range.from range.size range.behind (row_list self.old)) t (part range.from range.size (row_list self.old))) result (row_list self.old) (row_list self.new) }
    {
        let old = *self;
        let mut after = self.drop_rows(range, t);
        for i in range.from..range.from + range.size {
            after = self.put_held(range.with_size(after), old.row_at(i), t);
        }
        after
    }
}
