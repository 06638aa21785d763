// The calls of records and dates as C sees them: the edition comes first, and the answers are flat, numbered as document 01 numbers
// things.
#![tactic(auto)]

ghost use Rattle.std.specs.Prelude.{◌≡◌, Err, MatchResult};
ghost use Rattle.refusal.specs.Numbers.{number_of};
ghost use Rattle.calendar.specs.Dates.{date_of, record_of};
ghost use Rattle.calendar.specs.NextMinute.{next_minute_of};
ghost use Rattle.face_time.specs.Face.{word_face, record_face, date_face};
ghost use Rattle.record.specs.Editions.{edition_of, under};
ghost use Rattle.record.specs.Words.{read_of, written_of};

use calendar::Date;
use record::{Edition, Record};
use refusal::Refusal;

// The three answers differ in a type alone, but a struct that C sees has no type parameters.

// A word, 0 where refused.
#[repr(C)]
#[derive(Clone, Copy)]
pub struct WordAnswer {
    pub refusal: u8,
    pub word: u32,
}

// A record, zeros where refused.
#[repr(C)]
#[derive(Clone, Copy)]
pub struct RecordAnswer {
    pub refusal: u8,
    pub given: Record,
}

// A date, zeros where refused.
#[repr(C)]
#[derive(Clone, Copy)]
pub struct DateAnswer {
    pub refusal: u8,
    pub given: Date,
}

// The refusal's number, 0 for none, and the value, zeros where refused.
fn flat<T: Default + Drop>(answer: Result<T, Refusal>) -> (u8, T)
    ensures { MatchResult answer (λ value. result ≡ (0, value)) (λ why. (result.0 ≡ number_of why) × T.is_default result.1) }
{
    match answer {
        Ok(value) => (0, value),
        Err(why) => (u8::from(why), T::default()),
    }
}

impl From<Result<u32, Refusal>> for WordAnswer {
    ghost from_gives = { λ answer flat. flat ≡ word_face answer };

    fn from(answer: Result<u32, Refusal>) -> WordAnswer {
        let (refusal, word) = flat(answer);
        WordAnswer { refusal, word }
    }
}

impl From<Result<Record, Refusal>> for RecordAnswer {
    ghost from_gives = { λ answer flat. flat ≡ record_face answer };

    fn from(answer: Result<Record, Refusal>) -> RecordAnswer {
        let (refusal, given) = flat(answer);
        RecordAnswer { refusal, given }
    }
}

impl From<Result<Date, Refusal>> for DateAnswer {
    ghost from_gives = { λ answer flat. flat ≡ date_face answer };

    fn from(answer: Result<Date, Refusal>) -> DateAnswer {
        let (refusal, given) = flat(answer);
        DateAnswer { refusal, given }
    }
}

#[unsafe(no_mangle)]
pub extern "C" fn lw_read_record(edition: u16, code: u8, word: u32) -> RecordAnswer
    ensures { result ≡ record_face (under (edition_of edition) (λ e. read_of e code word) Err) }
{
    let edition = Edition::try_from(edition);
    let read = edition.and_then(|edition| record::read_record(edition, code, word));
    RecordAnswer::from(read)
}

#[unsafe(no_mangle)]
pub extern "C" fn lw_write_record(edition: u16, given: Record) -> WordAnswer
    ensures { result ≡ word_face (under (edition_of edition) (λ _. written_of given) Err) }
{
    let edition = Edition::try_from(edition);
    // Both editions write the same word.
    let written = edition.and_then(|_| record::write_record(given));
    WordAnswer::from(written)
}

#[unsafe(no_mangle)]
pub extern "C" fn lw_date_of_record(edition: u16, given: Record, first_year: u16) -> DateAnswer
    ensures { result ≡ date_face (under (edition_of edition) (λ e. date_of e given first_year) Err) }
{
    let edition = Edition::try_from(edition);
    let date = edition.and_then(|edition| calendar::date_of_record(edition, given, first_year));
    DateAnswer::from(date)
}

#[unsafe(no_mangle)]
pub extern "C" fn lw_record_of_date(edition: u16, date: Date) -> RecordAnswer
    ensures { result ≡ record_face (under (edition_of edition) (λ e. record_of e date) Err) }
{
    let edition = Edition::try_from(edition);
    let record = edition.and_then(|edition| calendar::record_of_date(edition, date));
    RecordAnswer::from(record)
}

#[unsafe(no_mangle)]
pub extern "C" fn lw_next_minute(edition: u16, given: Record) -> RecordAnswer
    ensures { result ≡ record_face (under (edition_of edition) (λ e. next_minute_of e given) Err) }
{
    let edition = Edition::try_from(edition);
    let next = edition.and_then(|edition| calendar::next_minute(edition, given));
    RecordAnswer::from(next)
}
