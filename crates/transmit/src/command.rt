// The arguments: DATE TIME OFFSET MINUTES [DAMAGED [SEED [EDITION]]]. The first that is wrong is named, with what was expected.
use crate::Feed;
use arguments::{Day, Time, day_of, edition_of, number_of, offset_of, time_of};
use calendar::Date;
use console::{argument, argument_count};
use record::Edition;
use std::env::Env;

const COUNT: &str =
    "expected DATE TIME OFFSET MINUTES [DAMAGED [SEED [EDITION]]], as in: transmit 1986-01-01 12:34 2 5";

const DATE: &str = "DATE: expected a day as 1986-01-01, from 1900-12-31 to 2100-01-03";

const TIME: &str = "TIME: expected a time as 12:34, from 00:00 to 23:59";

const OFFSET: &str = "OFFSET: expected a number of half hours from -32 to 31";

const MINUTES: &str = "MINUTES: expected a number from 1 to 65535";

const DAMAGED: &str = "DAMAGED: expected a number of blocks, from 0 to thirty times MINUTES";

const SEED: &str = "SEED: expected a number from 0 to 9999999";

const EDITION: &str = "EDITION: expected 1984 or 1982";

// The argument at a place, as it is read; one that is missing or has more than sixteen characters is read as empty.
fn read_at<T, F: FnOnce(&[u8]) -> T>(rt: &impl Env, i: usize, read: F) -> T
    requires { F.IsAlwaysCallable read }
{
    let mut text = [0u8; 16];
    read(argument(rt, i, &mut text))
}

// The same at a place that may be left out.
fn read_or<T: Drop, F: FnOnce(&[u8]) -> T + Drop>(
    rt: &impl Env,
    i: usize,
    read: F,
    otherwise: T,
) -> T
    requires { F.IsAlwaysCallable read }
{
    if i < argument_count(rt) {
        read_at(rt, i, read)
    } else {
        otherwise
    }
}

// A number of minutes, of which there is at least one.
fn minutes_in(rt: &impl Env) -> Option<u16> {
    let n = read_at(rt, 4, number_of)?;
    let minutes = u16::try_from(n).ok()?;
    (minutes != 0).then_some(minutes)
}

// How many blocks to damage, of thirty a minute.
fn damaged_in(rt: &impl Env, minutes: u16) -> Option<u32> {
    let n = read_or(rt, 5, number_of, Some(0))?;
    (n <= u32::from(minutes) * 30).then_some(n)
}

// How long the feed is, how much of it is damaged, and in which edition it is sent.
fn feed_from(rt: &impl Env, date: Date) -> Result<Feed, &'static str> {
    let minutes = minutes_in(rt).ok_or(MINUTES)?;
    let damaged = damaged_in(rt, minutes).ok_or(DAMAGED)?;
    let seed = read_or(rt, 6, number_of, Some(1)).ok_or(SEED)?;
    let edition = read_or(rt, 7, edition_of, Ok(Edition::Of1984)).map_err(|_| EDITION)?;
    let record = calendar::record_of_date(edition, date).map_err(|_| DATE)?;
    Ok(Feed {
        edition,
        record,
        minutes,
        damaged,
        seed,
    })
}

// The date of a moment, if it has a record. The same dates have records in both editions.
fn date_of(day: Day, time: Time, half_hours: i8) -> Option<Date> {
    let date = Date::new(
        day.year,
        day.month,
        day.day,
        time.hour,
        time.minute,
        half_hours,
    );
    calendar::record_of_date(Edition::Of1984, date)
        .is_ok()
        .then_some(date)
}

fn date_in(rt: &impl Env) -> Result<Date, &'static str> {
    let midnight = Time { hour: 0, minute: 0 };
    let day = read_at(rt, 1, day_of).ok_or(DATE)?;
    date_of(day, midnight, 0).ok_or(DATE)?;
    let time = read_at(rt, 2, time_of).ok_or(TIME)?;
    date_of(day, time, 0).ok_or(TIME)?;
    let half_hours = read_at(rt, 3, offset_of).ok_or(OFFSET)?;
    date_of(day, time, half_hours).ok_or(OFFSET)
}

// The feed, or what is wrong with the arguments.
pub fn asked(rt: &impl Env) -> Result<Feed, &'static str> {
    match argument_count(rt) {
        5..=8 => feed_from(rt, date_in(rt)?),
        _ => Err(COUNT),
    }
}
