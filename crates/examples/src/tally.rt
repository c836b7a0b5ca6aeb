// How many cases ran, and on how many all agreed.

use std::fmt;

#[derive(Clone, Copy, Default)]
pub struct Tally {
    cases: u64,
    agreed: u64,
}

impl Tally {
    pub fn count(&mut self, is_agreed: bool) {
        self.cases = self.cases.wrapping_add(1);
        self.agreed = self.agreed.wrapping_add(u64::from(is_agreed));
    }
}

impl fmt::Display for Tally {
    fn fmt<W: fmt::Write>(&self, f: &mut fmt::Formatter<W>) -> fmt::Result {
        let Tally { cases, agreed } = *self;
        write!(f, "{agreed} of {cases} agreed")
    }
}
