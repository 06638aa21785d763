// Weeks by ISO 8601: when week 1 begins, how many weeks a year has, and which year holds a day.
ghost use Rattle.std.specs.Prelude.{◌≡◌, ◌≤◌, ◌+◌};
ghost use Rattle.calendar.specs.Years.{first_civil_year, last_civil_year};
ghost use Rattle.calendar.specs.Weeks.{week_one, weeks_of, year_around, civil_year};

use crate::year::new_year;

// The Monday of the week that holds 4 January.
pub fn week_one(year: u16) -> u32
    requires { (first_civil_year ≤ year) × (year ≤ last_civil_year + 1) }
    ensures { result ≡ week_one year }
{
    let fourth = new_year(year) + 3;
    fourth - fourth % 7
}

// A year has 53 weeks if it starts on a Thursday, or is leap and starts on a Wednesday.
pub fn weeks_of(leap: bool, start_day: u8) -> u8
    requires { (1 ≤ start_day) × (start_day ≤ 7) }
    ensures { result ≡ weeks_of leap start_day }
{
    if start_day == 4 {
        return 53;
    }
    if start_day == 3 {
        return if leap { 53 } else { 52 };
    }
    52
}

// Of a year, the one before and the one after, the one that holds the day; the year and the next begin on these days.
pub fn year_around(year: u16, begin: u32, next: u32, day: u32) -> u16
    requires { (first_civil_year ≤ year) × (year ≤ last_civil_year) }
    ensures { result ≡ year_around year begin next day }
{
    if day < begin {
        return year - 1;
    }
    if day < next {
        return year;
    }
    year + 1
}

// The civil year of a day in the weeks of the coded year.
pub fn civil_year(coded: u16, day: u32) -> u16
    requires { (first_civil_year ≤ coded) × (coded ≤ last_civil_year) }
    ensures { result ≡ civil_year coded day }
{
    year_around(coded, new_year(coded), new_year(coded + 1), day)
}
