// Months: their lengths, and the day of the year that a day of a month is.
ghost use Rattle.std.specs.Prelude.{◌≡◌, ◌-◌, ◌≤◌, unwrap_or};
ghost use Rattle.calendar.specs.Days.{months, month_length, sum_of, month_day, month_from};

// A month and a day of it.
#[derive(Clone, Copy)]
pub struct MonthDay {
    pub month: u8,
    pub day: u8,
}

const LENGTHS: [u8; 12] = [31, 28, 31, 30, 31, 30, 31, 31, 30, 31, 30, 31];

pub fn month_length(month: u8, leap: bool) -> u8
    requires { (1 ≤ month) × (month ≤ 12) }
    ensures { result ≡ month_length leap month }
{
    if month == 2 {
        if leap {
            return 29;
        }
    }
    LENGTHS[(month - 1) as usize]
}

// The days of the year before the month.
pub fn days_before(month: u8, leap: bool) -> u16
    requires { (1 ≤ month) × (month ≤ 12) }
    ensures { result ≡ sum_of (month - 1) (months leap) }
{
    let mut days: u16 = 0;
    for m in 1..month {
        days += month_length(m, leap) as u16;
    }
    days
}

// The month and the day of it of a day of the year, if the year has it.
pub fn month_day(day: u32, leap: bool) -> Option<MonthDay>
    ensures { unwrap_or result (month_day 0 0) ≡ month_from (months leap) 1 day }
{
    let mut left = day;
    for month in 1..13 {
        let length = month_length(month, leap) as u32;
        if left <= length {
            return Some(MonthDay {
                month,
                day: left as u8,
            });
        }
        left -= length;
    }
    None
}
