// Why and where bytes are refused.

ghost use Rattle.std.specs.Prelude.{◌≡◌};
ghost use Rattle.second_reader.specs.Bounds.{number_of};

#[derive(Clone, Copy, PartialEq, Eq)]
pub enum Reason {
    Version,
    Short,
    Kind,
    Field,
    LeftOver,
    Range,
    Value,
}

#[derive(Clone, Copy, PartialEq, Eq)]
pub struct Refused {
    pub reason: Reason,
    pub offset: usize,
}

impl Reason {
    // The number of the refusal table.
    pub fn number(self) -> u8
        ensures { result ≡ number_of self }
    {
        match self {
            Reason::Version => 1,
            Reason::Short => 2,
            Reason::Kind => 3,
            Reason::Field => 4,
            Reason::LeftOver => 5,
            Reason::Range => 6,
            Reason::Value => 17,
        }
    }

    pub fn at(self, offset: usize) -> Refused
        ensures { result ≡ record { reason = self; offset = offset } }
    {
        Refused {
            reason: self,
            offset,
        }
    }
}
