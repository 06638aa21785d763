// Years: which are leap, when they begin, and which has a given start day and leap code.
ghost use Rattle.std.specs.Prelude.{◌≡◌, ◌≤◌, ◌+◌, unwrap_or};
ghost use Rattle.calendar.specs.Years.{first_year_of_span, last_first_year, first_civil_year, last_civil_year, span, leap_year, year_length, new_year, start_day_of, year_from};

use crate::Date;
use crate::leap::leap_code;
use record::Edition;

// The Gregorian rule.
pub fn is_leap(year: u16) -> bool
    ensures { result ≡ leap_year year }
{
    if year % 100 == 0 {
        return year % 400 == 0;
    }
    year % 4 == 0
}

pub fn year_length(leap: bool) -> u16
    ensures { result ≡ year_length leap }
{
    if leap { 366 } else { 365 }
}

// 1 January, in days after Monday, 1 January 1900: 365 for each year, and the leap days since.
// A year stays a number: whoever made a struct of one would show there the range that is shown now where it calls.
pub fn new_year(year: u16) -> u32
    requires { (first_civil_year ≤ year) × (year ≤ last_civil_year + 1) }
    ensures { result ≡ new_year year }
{
    let last = year as u32 - 1;
    // 460 leap days came before 1900.
    let leap_days = last / 4 + last / 400 - last / 100 - 460;
    365 * (last - 1899) + leap_days
}

pub fn start_day_of(year: u16) -> u8
    requires { (first_civil_year ≤ year) × (year ≤ last_civil_year + 1) }
    ensures { result ≡ start_day_of year }
{
    (new_year(year) % 7 + 1) as u8
}

// The one of the 28 years that has this start day and leap code.
pub fn year_of(edition: Edition, first_year: u16, start_day: u8, leap: u8) -> Option<u16>
    requires { (first_year_of_span ≤ first_year) × (first_year ≤ last_first_year) }
    ensures { unwrap_or result 0 ≡ year_from edition span first_year start_day leap }
{
    for year in first_year..first_year + Date::SPAN {
        if start_day_of(year) == start_day && leap_code(edition, year) == leap {
            return Some(year);
        }
    }
    None
}
