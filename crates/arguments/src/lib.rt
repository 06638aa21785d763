// What the text of an argument says: a number, an edition, a day, a time of day, an offset in half hours; or that it says none.
#![tactic(auto)]

ghost use Rattle.std.specs.Prelude.{◌≡◌};
ghost use Rattle.arguments.specs.Editions.{edition_in};
ghost use Rattle.arguments.specs.Numbers.{number_of};
ghost use Rattle.arguments.specs.Times.{day_of, time_of, signed, offset_of};

use record::Edition;
use refusal::Refusal;

// As it is written: that the calendar has it is not said.
#[derive(Clone, Copy)]
pub struct Day {
    pub year: u16,
    pub month: u8,
    pub day: u8,
}

// As it is written: that it is before midnight is not said.
#[derive(Clone, Copy)]
pub struct Time {
    pub hour: u8,
    pub minute: u8,
}

// A number of up to seven digits; zeros before it count for nothing.
pub fn number_of(text: &[u8]) -> Option<u32>
    ensures { result ≡ number_of text.now }
{
    if text.is_empty() {
        return None;
    }
    let mut n: u32 = 0;
    for &c in text {
        if !c.is_ascii_digit() || 999_999 < n {
            return None;
        }
        n = n * 10 + (c - b'0') as u32;
    }
    Some(n)
}

// The edition whose year a text writes.
#[tactic(auto, unfolding(record::specs::Editions::edition_of))]
pub fn edition_of(text: &[u8]) -> Result<Edition, Refusal>
    ensures { result ≡ edition_in text.now }
{
    let n = number_of(text).ok_or(Refusal::OutOfRange)?;
    let year = u16::try_from(n).map_err(|_| Refusal::OutOfRange)?;
    Edition::try_from(year)
}

// A day as 1986-01-01.
#[tactic(auto, unfolding(crate::specs::Times::day_of, crate::specs::Times::day_with, crate::specs::Times::number_at))]
pub fn day_of(text: &[u8]) -> Option<Day>
    ensures { result ≡ day_of text.now }
{
    if text.len() != 10 || text[4] != b'-' || text[7] != b'-' {
        return None;
    }
    let year = number_of(&text[0..4])?;
    let month = number_of(&text[5..7])?;
    let day = number_of(&text[8..10])?;
    Some(Day {
        year: year as u16,
        month: month as u8,
        day: day as u8,
    })
}

// A time as 12:34.
#[tactic(auto, unfolding(crate::specs::Times::time_of, crate::specs::Times::time_with, crate::specs::Times::number_at))]
pub fn time_of(text: &[u8]) -> Option<Time>
    ensures { result ≡ time_of text.now }
{
    if text.len() != 5 || text[2] != b':' {
        return None;
    }
    let hour = number_of(&text[0..2])?;
    let minute = number_of(&text[3..5])?;
    Some(Time {
        hour: hour as u8,
        minute: minute as u8,
    })
}

#[tactic(auto, unfolding(crate::specs::Times::signed))]
fn half_hours(digits: &[u8], minus: bool) -> Option<i8>
    ensures { result ≡ signed minus (number_of digits.now) }
{
    let n = number_of(digits)?;
    let size = i8::try_from(n).ok()?;
    Some(if minus { -size } else { size })
}

// Half hours with or without a minus.
#[tactic(auto, unfolding(crate::specs::Times::offset_of))]
pub fn offset_of(text: &[u8]) -> Option<i8>
    ensures { result ≡ offset_of text.now }
{
    match text {
        [b'-', digits @ ..] => half_hours(digits, true),
        _ => half_hours(text, false),
    }
}
