// The open streamed transactions: an xid of 0 is a free place, and a mark that is not 0 says that a change was accepted. Whoever is above
// knows them by the public operations alone (specs/Opens.antt).
ghost use Rattle.std.specs.Prelude.{◌≡◌, cond, eqb, leb};
ghost use Rattle.std.specs.List.{position};
ghost use Rattle.wire.specs.Lists.{replace_first};
ghost use Rattle.catalog.specs.Opens.{places_in, placed, is_open_in, open_count_in, changed_in, open_in, close_in, mark_in};
ghost use Rattle.catalog.specs.Table.{xid_is, new_stream, is};

const PLACES: usize = 16;

// Each xid with its mark, in two arrays as the announcements are.
#[repr(C)]
#[derive(Clone, Copy)]
pub struct Streams {
    pub xids: [u32; PLACES],
    pub marks: [u8; PLACES],
}

impl Streams {
    // The first place of x.
    fn find(&self, x: u32) -> Option<usize>
        ensures { result ≡ position (is x) self.now.xids }
    {
        self.xids.iter().position(|xid| *xid == x)
    }

    // Whether x had a change since it opened.
    pub fn is_changed(&self, x: u32) -> bool
        ensures { result ≡ changed_in self.now x }
    {
        match self.find(x) {
            Some(at) => self.marks[at] != 0,
            None => false,
        }
    }

    // Whether x is open: 0 is no xid.
    pub fn is_open(&self, x: u32) -> bool
        ensures { result ≡ is_open_in self.now x }
    {
        x != 0 && self.find(x).is_some()
    }

    // Whether 16 are open.
    pub fn is_full(&self) -> bool
        ensures { result ≡ leb 16 (open_count_in self.now) }
    {
        self.find(0).is_none()
    }

    // The first place of a is b's, with no change.
    fn replace(&mut self, a: u32, b: u32)
        ensures { self.new ≡ placed (replace_first (xid_is a) (new_stream b) (places_in self.old)) }
    {
        if let Some(at) = self.find(a) {
            self.xids[at] = b;
            self.marks[at] = 0;
        }
    }

    #[tactic(auto, unfolding(crate::specs::Opens::open_in))]
    pub fn open(&mut self, x: u32)
        ensures { self.new ≡ open_in self.old x }
    {
        self.replace(0, x);
    }

    #[tactic(auto, unfolding(crate::specs::Opens::close_in))]
    pub fn close(&mut self, x: u32)
        ensures { self.new ≡ close_in self.old x }
    {
        self.replace(x, 0);
    }

    // Notes that x had a change.
    pub fn mark(&mut self, x: u32)
        ensures { self.new ≡ mark_in self.old x }
    {
        for i in 0..PLACES {
            self.marks[i] = marked_byte(self.xids[i], self.marks[i], x);
        }
    }
}

fn marked_byte(xid: u32, mark: u8, t: u32) -> u8
    ensures { result ≡ cond (eqb xid t) 1 mark }
{
    if xid == t { 1 } else { mark }
}
