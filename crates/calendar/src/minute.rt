// The next minute of a record.
ghost use Rattle.std.specs.Prelude.{◌≡◌, true};
ghost use Rattle.record.specs.Ranges.{in_range};
ghost use Rattle.calendar.specs.NextMinute.{at_time, midnight, next_year, next_day, go_on};

use crate::leap::{next_leap_code, says_leap};
use crate::week::weeks_of;
use crate::year::year_length;
use record::{Edition, Record};

// The record at another time of its day.
fn at_time(hour: u8, minute: u8, record: Record) -> Record
    ensures { result ≡ at_time hour minute «record» }
{
    Record {
        hour,
        minute,
        ..record
    }
}

// The midnight that begins a day.
fn midnight(leap: u8, start_day: u8, week: u8, weekday: u8, offset: i8) -> Record
    ensures { result ≡ midnight leap start_day week weekday offset }
{
    Record {
        leap,
        start_day,
        week,
        weekday,
        hour: 0,
        minute: 0,
        offset,
    }
}

// A record whose fields all lie in their ranges.
#[derive(Clone, Copy)]
pub struct Ranged {
    pub fields: Record,
    ghost are_in_range: { in_range fields ≡ true },
}

impl Ranged {
    // The minute goes on, then the hour, then the day.
    pub fn go_on(self, edition: Edition) -> Record
        ensures { result ≡ go_on edition self.fields }
    {
        let record = self.fields;
        if record.minute < 59 {
            return at_time(record.hour, record.minute + 1, record);
        }
        if record.hour < 23 {
            return at_time(record.hour + 1, 0, record);
        }
        self.next_day(edition)
    }

    // The midnight after a usable record's day.
    fn next_day(self, edition: Edition) -> Record
        ensures { result ≡ next_day edition self.fields }
    {
        let record = self.fields;
        let leap = record.leap;
        let start_day = record.start_day;
        let offset = record.offset;
        if record.weekday < 7 {
            return midnight(leap, start_day, record.week, record.weekday + 1, offset);
        }
        if record.week < weeks_of(says_leap(edition, leap), start_day) {
            return midnight(leap, start_day, record.week + 1, 1, offset);
        }
        self.next_year(edition)
    }

    // The midnight that begins week 1 of the next kind of year.
    fn next_year(self, edition: Edition) -> Record
        ensures { result ≡ next_year edition self.fields }
    {
        let record = self.fields;
        let days = year_length(says_leap(edition, record.leap));
        let leap = next_leap_code(edition, record.leap);
        let start_day = ((record.start_day as u16 - 1 + days) % 7 + 1) as u8;
        let offset = record.offset;
        midnight(leap, start_day, 1, 1, offset)
    }
}
