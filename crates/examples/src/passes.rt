// The passes over the cases, and what a case is put through in each.

use crate::answers::Place;
use crate::text::{Bytes, Case};
use crate::{Tally, everywhere, readers, varied, writing};
use std::fmt;

#[derive(Clone, Copy, PartialEq, Eq)]
pub enum Pass {
    AsWritten,
    EveryVersion,
    CutShort,
    Longer,
    Changed,
    Steps,
    Positions,
    WrittenBack,
    LessRoom,
    WrittenAtEveryVersion,
    Values,
}

// All behind the first, in turn.
pub const PASSES: [Pass; 10] = [
    Pass::EveryVersion,
    Pass::CutShort,
    Pass::Longer,
    Pass::Changed,
    Pass::Steps,
    Pass::Positions,
    Pass::WrittenBack,
    Pass::LessRoom,
    Pass::WrittenAtEveryVersion,
    Pass::Values,
];

impl Pass {
    fn name(self) -> &'static str {
        match self {
            Pass::AsWritten => "as written",
            Pass::EveryVersion => "varied, every version and place",
            Pass::CutShort => "varied, cut short",
            Pass::Longer => "varied, a byte longer",
            Pass::Changed => "varied, a byte changed",
            Pass::Steps => "steps",
            Pass::Positions => "steps from every offset",
            Pass::WrittenBack => "written back",
            Pass::LessRoom => "written back into less room",
            Pass::WrittenAtEveryVersion => "written back at every version and place",
            Pass::Values => "values from every offset",
        }
    }

    // Cases that are not marked for it are not varied.
    pub fn is_varied(self) -> bool {
        match self {
            Pass::EveryVersion | Pass::CutShort | Pass::Longer | Pass::Changed => true,
            _ => false,
        }
    }
}

impl fmt::Display for Pass {
    fn fmt<W: fmt::Write>(&self, f: &mut fmt::Formatter<W>) -> fmt::Result {
        f.write_str(self.name())
    }
}

// A case, whose message may be varied in its place.
pub fn run(rt: &impl Print, tally: &mut Tally, pass: Pass, case: Case, message: &mut Bytes) {
    match pass {
        Pass::EveryVersion => varied::run_at_every_version(rt, tally, message.as_slice()),
        Pass::CutShort => varied::run_cut_short(rt, tally, message.as_slice()),
        Pass::Longer => varied::run_longer(rt, tally, message),
        Pass::Changed => varied::run_changed(rt, tally, message.as_mut_slice()),
        _ => run_whole(rt, tally, pass, case, message.as_slice()),
    }
}

fn run_whole(rt: &impl Print, tally: &mut Tally, pass: Pass, case: Case, bytes: &[u8]) {
    let Case { place, answer, .. } = case;
    match pass {
        Pass::AsWritten => tally.count(readers::is_read(rt, place, bytes, answer)),
        Pass::Steps => tally.count(readers::is_stepped(rt, place, bytes)),
        Pass::Positions => readers::run_positions(rt, tally, place, bytes),
        Pass::WrittenBack => {
            readers::run_written(rt, tally, place, bytes, writing::is_written_back)
        }
        Pass::LessRoom => {
            readers::run_written(rt, tally, place, bytes, writing::is_refused_in_less)
        }
        Pass::WrittenAtEveryVersion => {
            readers::run_written(
                rt,
                tally,
                place,
                bytes,
                writing::is_written_at_every_version,
            )
        }
        _ => everywhere::run(rt, tally, bytes),
    }
}
