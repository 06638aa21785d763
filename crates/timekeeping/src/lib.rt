// The time: held, aged, confirmed and forgotten, block by block; and when it is proper.
#![tactic(auto)]

ghost use Rattle.std.specs.Prelude.{◌≡◌, ◌+◌, ◌≤◌, is_ok};
ghost use Rattle.calendar.specs.Dates.{usable_of};
ghost use Rattle.calendar.specs.MinutesLater.{minutes_later};
ghost use Rattle.timekeeping.specs.Proper.{is_no_time, time_proper};
ghost use Rattle.timekeeping.specs.Times.{no_time, usable_in, same_minute, follows, confirms, renewed_by, aged_by, offered_to};

use block::{Body, Refused};
use record::{Edition, Record};
use refusal::Refusal;

// None, a candidate or confirmed; the record that is held, and its age in blocks.
#[derive(Clone, Copy, PartialEq, Default)]
pub struct Time {
    // A number, since C lends the state as plain numbers and `is_proper` answers for each of them.
    pub kind: u8,
    pub held: Record,
    pub age: u8,
}

impl Time {
    pub const NONE: u8 = 0;

    pub const CANDIDATE: u8 = 1;

    pub const CONFIRMED: u8 = 2;
}

// No time: every place is 0.
pub fn no_time() -> Time
    ensures { result ≡ no_time }
{
    Time::default()
}

// The record of a usable time block.
#[tactic(auto, unfolding(crate::specs::Times::usable_in))]
fn usable_in(edition: Edition, read: Result<Body, Refused>) -> Result<Record, Refusal>
    ensures { result ≡ usable_in edition read }
{
    let body = read?;
    let record = record::read_record(edition, body.code, body.word)?;
    calendar::usable(edition, record)
}

// All but the offset is the same.
#[tactic(auto, using(std::proofs::lemmas::Bool::Decides::nat_tests), unfolding(crate::specs::Times::same_minute))]
fn same_minute(n: Record, r: Record) -> bool
    ensures { result ≡ same_minute n r }
{
    let offset = r.offset;
    Record { offset, ..n } == r
}

// So many minutes later, one or more: the next minute taken that often.
fn minutes_later(edition: Edition, minutes: u8, held: Record) -> Result<Record, Refusal>
    requires { 1 ≤ minutes }
    ensures { result ≡ minutes_later edition minutes held }
{
    // Called from two places the next minute is not copied into the receiver's loop, which would cost every bit.
    let mut later = calendar::next_minute(edition, held)?;
    for _ in 1..minutes {
        later = calendar::next_minute(edition, later)?;
    }
    Ok(later)
}

// The record's minute is so many minutes after the held record's.
#[tactic(auto, unfolding(crate::specs::Times::follows))]
fn comes_later(edition: Edition, minutes: u8, held: Record, r: Record) -> bool
    requires { 1 ≤ minutes }
    ensures { result ≡ follows edition minutes held r }
{
    minutes_later(edition, minutes, held).is_ok_and(|n| same_minute(n, r))
}

// Offered one to four whole minutes after the held record, the record tells as many minutes more.
#[tactic(auto, using(std::proofs::lemmas::Bool::Decides::nat_tests), unfolding(crate::specs::Times::confirms))]
fn confirms(edition: Edition, age: u8, held: Record, r: Record) -> bool
    ensures { result ≡ confirms edition (age + 1) held r }
{
    if 119 < age {
        return false;
    }
    let offered = age + 1;
    let minutes = offered / 30;
    if offered % 30 == 0 {
        comes_later(edition, minutes, held, r)
    } else {
        false
    }
}

// A usable record is offered: it is confirmed or a candidate, and its age is 0.
#[tactic(auto, using(std::proofs::lemmas::Bool::Decides::nat_tests), unfolding(crate::specs::Times::renewed_by))]
fn renewed(edition: Edition, time: Time, r: Record) -> Time
    ensures { result ≡ renewed_by edition time r }
{
    let mut kind = Time::CANDIDATE;
    if time.kind != Time::NONE {
        if confirms(edition, time.age, time.held, r) {
            kind = Time::CONFIRMED;
        }
    }
    Time {
        kind,
        held: r,
        age: 0,
    }
}

// A block that is not usable is offered: the held record grows older, and is let go with the fourth missed minute.
#[tactic(auto, using(std::proofs::lemmas::Bool::Decides::nat_tests), unfolding(crate::specs::Times::aged_by))]
fn aged(time: Time) -> Time
    ensures { result ≡ aged_by time }
{
    if time.kind == Time::NONE {
        return no_time();
    }
    if time.age < 119 {
        Time {
            age: time.age + 1,
            ..time
        }
    } else {
        no_time()
    }
}

// A block is offered to the time, good or bad.
#[tactic(auto, unfolding(crate::specs::Times::offered_to))]
pub fn offered_to(edition: Edition, time: Time, read: Result<Body, Refused>) -> Time
    ensures { result ≡ offered_to edition time (usable_in edition read) }
{
    match usable_in(edition, read) {
        Ok(r) => renewed(edition, time, r),
        Err(_) => aged(time),
    }
}

// ---- proper

pub fn is_no_time(time: Time) -> bool
    ensures { result ≡ is_no_time time }
{
    time == no_time()
}

fn is_usable(edition: Edition, r: Record) -> bool
    ensures { result ≡ is_ok (usable_of edition r) }
{
    calendar::usable(edition, r).is_ok()
}

#[tactic(auto, using(std::proofs::lemmas::Bool::Decides::nat_tests), unfolding(crate::specs::Proper::time_proper))]
pub fn is_proper(edition: Edition, time: Time) -> bool
    ensures { result ≡ time_proper edition time }
{
    if time.kind == Time::NONE {
        return is_no_time(time);
    }
    if Time::CONFIRMED < time.kind {
        return false;
    }
    if time.age < 120 {
        is_usable(edition, time.held)
    } else {
        false
    }
}
