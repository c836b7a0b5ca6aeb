// The announcements of a session: a table that has the arrays for itself, of which the first `rows` are in use. Whoever is above knows it
// by these operations alone (specs/Tables.antt).
ghost use Rattle.std.specs.Prelude.{◌≡◌, is_some, leb};
ghost use Rattle.catalog.specs.Table.{Sized};
ghost use Rattle.catalog.specs.Tables.{table, lookup, used_in, put_in, drop_in, release_in};

use crate::range::Range;
use crate::rows::Row;
use crate::{ROWS, search};

// What was announced of a table.
#[derive(Clone, Copy, PartialEq, Eq)]
pub struct Announcement {
    pub tag: u64,
    pub identity: u8,
    pub columns: u16,
}

// The rows: a key each, and the announcement. They stay four arrays: as an array of rows they are padded, and past the size of C's record.
// How many are in use is a word of C's record, in its head, and goes beside them.
#[repr(C)]
#[derive(Clone, Copy)]
pub struct Announcements {
    pub keys: [u64; ROWS],
    pub tags: [u64; ROWS],
    pub identities: [u8; ROWS],
    pub columns: [u16; ROWS],
}

impl Announcements {
    // The announcement of a holder and an OID.
    pub fn find(&self, rows: u16, holder: u32, oid: u32) -> Option<Announcement>
        ensures { result ≡ lookup (table rows self.now) holder oid }
    {
        self.find_row(Range::clamped(0, rows, 0), search::key_of(holder, oid))
    }

    // Whether a holder has an announcement of an OID.
    pub fn is_announced(&self, rows: u16, holder: u32, oid: u32) -> bool
        ensures { result ≡ is_some (lookup (table rows self.now) holder oid) }
    {
        self.has_key(Range::clamped(0, rows, 0), search::key_of(holder, oid))
    }

    // Whether there are 256.
    pub fn is_full(&self, rows: u16) -> bool
        ensures { result ≡ leb 256 (used_in (table rows self.now)) }
    {
        ROWS <= Range::clamped(0, rows, 0).size
    }

    // Puts an announcement. This and the next two return how many rows are then in use.
    pub fn put(&mut self, rows: u16, holder: u32, oid: u32, said: Announcement) -> u16
        ensures { table result self.new ≡ put_in (table rows self.old) holder oid said.tag said.identity said.columns }
    {
        let row = Row {
            key: search::key_of(holder, oid),
            tag: said.tag,
            identity: said.identity,
            columns: said.columns,
        };
        let after = self.put_row(Range::clamped(0, rows, 0), row);
        self.sized();
        after as u16
    }

    // Drops what a holder announced.
    pub fn drop_holder(&mut self, rows: u16, holder: u32) -> u16
        ensures { table result self.new ≡ drop_in (table rows self.old) holder }
    {
        let after = self.drop_rows(Range::clamped(0, rows, 0), holder);
        self.sized();
        after as u16
    }

    // Makes common what a holder announced.
    pub fn release(&mut self, rows: u16, holder: u32) -> u16
        ensures { table result self.new ≡ release_in (table rows self.old) holder }
    {
        let after = self.release_rows(Range::clamped(0, rows, 0), holder);
        self.sized();
        after as u16
    }

    // Nothing to run: after a call that changed them, a proof learns here that the arrays still have their lengths.
    fn sized(&self)
        ensures { Sized self.now }
    {}
}
