// Times as dates. A time counts microseconds from the start of the year 2000.
// The calendar stands here, since a `Timestamp` of the kit's `jiff` ends before the last day of the year 9999, which is told as a date.
ghost use Rattle.std.specs.Prelude.{◌<◌, ◌≤◌};

use std::fmt;

const DAY: u64 = 86_400_000_000;

const HOUR: u64 = 3_600_000_000;

const MINUTE: u64 = 60_000_000;

const SECOND: u64 = 1_000_000;

// From 1 March of the year 0, where 400 years with all their leap days start, to 2000 and to 10000.
const YEAR_2000: u64 = 730_425 * 86_400_000_000;

const YEAR_10000: u64 = 3_652_365 * 86_400_000_000;

// A time in UTC; as it is before March of the year 0 and after the year 9999.
#[derive(Clone, Copy)]
pub struct Time(pub i64);

#[derive(Clone, Copy)]
struct Date {
    year: u64,
    month: u64,
    day: u64,
}

// The date of a day, counted from 1 March of the year 0. A year starts in March here, so that its leap day is its last.
// There are 146,097 days in 400 years, 1,461 in 4, and 153 in the 5 months from March or August on.
fn date_of(days: u64) -> Date
    requires { days < 3652365 }
    ensures { (result.year ≤ 10000) × (result.month ≤ 12) × (result.day ≤ 31) }
{
    let quarters = days * 4 + 3;
    let century = quarters / 146_097;
    let rest = quarters % 146_097 / 4 * 4 + 3;
    let year = century * 100 + rest / 1_461;
    let fifths = rest % 1_461 / 4 * 5 + 461;
    let month = fifths / 153;
    let day = fifths % 153 / 5 + 1;
    if month <= 12 {
        Date { year, month, day }
    } else {
        Date {
            year: year + 1,
            month: month - 12,
            day,
        }
    }
}

impl fmt::Display for Date {
    fn fmt<W: fmt::Write>(&self, f: &mut fmt::Formatter<W>) -> fmt::Result {
        let Date { year, month, day } = *self;
        write!(f, "{year:04}-{month:02}-{day:02}")
    }
}

impl fmt::Display for Time {
    fn fmt<W: fmt::Write>(&self, f: &mut fmt::Formatter<W>) -> fmt::Result {
        let time = self.0;
        let since = time.cast_unsigned().wrapping_add(YEAR_2000);
        if YEAR_10000 <= since {
            return write!(f, "{time} microseconds from 2000");
        }
        let date = date_of(since / DAY);
        let hour = since / HOUR % 24;
        let minute = since / MINUTE % 60;
        let second = since / SECOND % 60;
        let micros = since % SECOND;
        write!(f, "{date}T{hour:02}:{minute:02}:{second:02}.{micros:06}Z")
    }
}
