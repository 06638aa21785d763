// Dates of records and records of dates (document 01, "The calendar"), under either edition.
#![tactic(auto)]

ghost use Rattle.std.specs.Prelude.{◌≡◌, true, ◌≤◌, Ok};
ghost use Rattle.record.specs.Ranges.{within};
ghost use Rattle.calendar.specs.Years.{first_year_of_span, last_first_year, last_year, first_civil_year, last_civil_year};
ghost use Rattle.calendar.specs.Dates.{new_date, usable_of, HasWeek, day_of_record, date_from, date_in, date_of, date_in_range, day_of_date, coded_year, record_of};
ghost use Rattle.calendar.specs.NextMinute.{next_minute_of};

mod leap;
mod minute;
mod month;
mod week;
mod year;

use leap::{leap_code, says_leap};
use minute::Ranged;
use month::{days_before, month_day, month_length};
use record::{Edition, Record};
use refusal::Refusal;
use week::{civil_year, week_one, weeks_of, year_around};
use year::{is_leap, new_year, start_day_of, year_of};

// A minute in UTC. The offset is carried and never applied. Zeros stand where there is none.
#[repr(C)]
#[derive(Clone, Copy, Default)]
pub struct Date {
    pub year: u16,
    pub month: u8,
    pub day: u8,
    pub hour: u8,
    pub minute: u8,
    pub offset: i8,
}

impl Date {
    // The years that are coded, the last that may be the first of a span, and the years of a span.
    pub const FIRST_YEAR: u16 = 1901;

    pub const LAST_FIRST_YEAR: u16 = 2072;

    pub const LAST_YEAR: u16 = 2099;

    pub const SPAN: u16 = 28;

    // The civil years that dates can lie in.
    pub const FIRST_CIVIL_YEAR: u16 = 1900;

    pub const LAST_CIVIL_YEAR: u16 = 2100;

    pub fn new(year: u16, month: u8, day: u8, hour: u8, minute: u8, offset: i8) -> Date
        ensures { result ≡ new_date year month day hour minute offset }
    {
        Date {
            year,
            month,
            day,
            hour,
            minute,
            offset,
        }
    }

    // The date of a record in a coded year that has its week.
    fn in_year(coded: u16, record: Record) -> Date
        requires { HasWeek coded «record» }
        ensures { result ≡ date_from coded «record» }
    {
        let ranged = Ranged { fields: record };
        let day = day_of_record(coded, ranged);
        let year = civil_year(coded, day);
        let on = month_day(day - new_year(year) + 1, is_leap(year)).unwrap();
        Date::new(
            year,
            on.month,
            on.day,
            record.hour,
            record.minute,
            record.offset,
        )
    }

    // The date of a usable record, whose coded year is the one of the 28 that has the record's start day and leap code.
    fn in_span(edition: Edition, first_year: u16, record: Record) -> Date
        requires { (first_year_of_span ≤ first_year) × (first_year ≤ last_first_year) × (usable_of edition «record» ≡ Ok «record») }
        ensures { result ≡ date_in edition first_year «record» }
    {
        let coded = year_of(edition, first_year, record.start_day, record.leap).unwrap();
        Date::in_year(coded, record)
    }

    // The year may be the first of the 28.
    pub fn may_be_first(year: u16) -> bool
        ensures { result ≡ within first_year_of_span year last_first_year }
    {
        record::within(Date::FIRST_YEAR, year, Date::LAST_FIRST_YEAR)
    }
}

// The record itself where its fields are in range and its year has the week.
pub fn usable(edition: Edition, record: Record) -> Result<Record, Refusal>
    ensures { result ≡ usable_of edition «record» }
{
    if record::in_range(record) {
        let weeks = weeks_of(says_leap(edition, record.leap), record.start_day);
        if record.week <= weeks {
            Ok(record)
        } else {
            Err(Refusal::NotInYear)
        }
    } else {
        Err(Refusal::OutOfRange)
    }
}

// The date of the record in the 28 years from the first year on.
#[tactic(auto, unfolding(crate::specs::Dates::date_of, crate::specs::Dates::date_after))]
pub fn date_of_record(edition: Edition, record: Record, first_year: u16) -> Result<Date, Refusal>
    ensures { result ≡ date_of edition «record» first_year }
{
    if Date::may_be_first(first_year) {
        let usable = usable(edition, record)?;
        Ok(Date::in_span(edition, first_year, usable))
    } else {
        Err(Refusal::WrongYear)
    }
}

// The record of the date.
pub fn record_of_date(edition: Edition, date: Date) -> Result<Record, Refusal>
    ensures { result ≡ record_of edition date }
{
    let in_civil_years = record::within(Date::FIRST_CIVIL_YEAR, date.year, Date::LAST_CIVIL_YEAR);
    let in_range = date_in_range(date);
    if in_civil_years {
        if in_range {
            let civil = CivilDate { fields: date };
            civil.written(edition)
        } else {
            Err(Refusal::OutOfRange)
        }
    } else {
        Err(Refusal::WrongYear)
    }
}

// The record one minute later.
#[tactic(auto, unfolding(crate::specs::NextMinute::next_minute_of, crate::specs::NextMinute::next_after))]
pub fn next_minute(edition: Edition, record: Record) -> Result<Record, Refusal>
    ensures { result ≡ next_minute_of edition «record» }
{
    let ranged = Ranged {
        fields: usable(edition, record)?,
    };
    Ok(ranged.go_on(edition))
}

// The month exists, it has the day, and the time is in range.
fn date_in_range(date: Date) -> bool
    ensures { result ≡ date_in_range date }
{
    if record::within(1, date.month as u16, 12) {
        let length = month_length(date.month, is_leap(date.year));
        if record::within(1, date.day as u16, length as u16) {
            record::time_in_range(date.hour, date.minute, date.offset)
        } else {
            false
        }
    } else {
        false
    }
}

// The day that a record names in a coded year.
fn day_of_record(coded: u16, ranged: Ranged) -> u32
    requires { (first_year_of_span ≤ coded) × (coded ≤ last_year) }
    ensures { result ≡ day_of_record coded ranged.fields }
{
    let record = ranged.fields;
    let weeks = record.week as u32 - 1;
    week_one(coded) + 7 * weeks + (record.weekday as u32 - 1)
}

// A date of the civil years whose fields all lie in their ranges.
#[derive(Clone, Copy)]
struct CivilDate {
    fields: Date,
    ghost in_years: { (first_civil_year ≤ fields.year) × (fields.year ≤ last_civil_year) },
    ghost are_in_range: { date_in_range fields ≡ true },
}

impl CivilDate {
    // Its record, where its week's year can be coded.
    fn written(self, edition: Edition) -> Result<Record, Refusal>
        ensures { result ≡ record_of edition self.fields }
    {
        let date = self.fields;
        let day = self.day();
        let begin = week_one(date.year);
        let next = week_one(date.year + 1);
        let coded = year_around(date.year, begin, next, day);
        if record::within(Date::FIRST_YEAR, coded, Date::LAST_YEAR) {
            return Ok(self.record_in(edition, coded, day));
        }
        Err(Refusal::WrongYear)
    }

    // Its record, on a day of its coded year.
    fn record_in(self, edition: Edition, coded: u16, day: u32) -> Record
        requires { (first_year_of_span ≤ coded) × (coded ≤ last_year) × (coded ≡ coded_year self.fields) × (day ≡ day_of_date self.fields) }
        ensures { record_of edition self.fields ≡ Ok result }
    {
        let date = self.fields;
        let since = day - week_one(coded);
        Record {
            leap: leap_code(edition, coded),
            start_day: start_day_of(coded),
            week: (since / 7 + 1) as u8,
            weekday: (since % 7 + 1) as u8,
            hour: date.hour,
            minute: date.minute,
            offset: date.offset,
        }
    }

    // Its day.
    fn day(self) -> u32
        ensures { result ≡ day_of_date self.fields }
    {
        let date = self.fields;
        let days = days_before(date.month, is_leap(date.year)) + date.day as u16;
        new_year(date.year) + (days - 1) as u32
    }
}
