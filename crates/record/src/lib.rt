// The 32-bit word of a time record, read and written (document 01, "The time record"), under either edition of the
// specification (document 02, No. 3).
#![tactic(auto)]

ghost use Rattle.std.specs.Prelude.{◌≡◌, true, ◌+◌, ◌<◌, Err};
ghost use Rattle.record.specs.Editions.{edition_of, is_filler};
ghost use Rattle.record.specs.Fields.{flag_of, offset_of, six_of, fields_of, word_of};
ghost use Rattle.record.specs.Ranges.{within, offset_in_range, time_in_range, kind_in_range, day_in_range, in_range};
ghost use Rattle.record.specs.Words.{read_of, written_of};

use refusal::Refusal;

// The specification that a sender follows.
#[derive(Clone, Copy)]
pub enum Edition {
    Of1984,
    Of1982,
}

// A caller names an edition by its year.
impl TryFrom<u16> for Edition {
    type Error = Refusal;

    ghost try_from_gives = { λ number named. named ≡ edition_of number };

    #[tactic(auto, unfolding(crate::specs::Editions::edition_of))]
    fn try_from(number: u16) -> Result<Edition, Refusal> {
        match number {
            1984 => Ok(Edition::Of1984),
            1982 => Ok(Edition::Of1982),
            _ => Err(Refusal::OutOfRange),
        }
    }
}

// A minute in UTC as it is sent: the kind of its year, its week and weekday, its time. Zeros stand where there is none.
#[repr(C)]
#[derive(Clone, Copy, Default, PartialEq, Eq)]
pub struct Record {
    // How near a leap year is, by the edition's code.
    pub leap: u8,
    // The weekday of 8 January, so also of 1 January.
    pub start_day: u8,
    pub week: u8,
    // 1 is Monday.
    pub weekday: u8,
    pub hour: u8,
    pub minute: u8,
    // Half hours ahead of UTC.
    pub offset: i8,
}

// The record in the word of a block with this code.
pub fn read_record(edition: Edition, code: u8, word: u32) -> Result<Record, Refusal>
    ensures { result ≡ read_of edition code word }
{
    // Most blocks that a receiver meets go here, by one test: they are of another code, or have their first bit set.
    if code as u32 + word / 2147483648 != 0 {
        return Err(no_record(edition, code, word));
    }
    if is_filler(edition, word) {
        return Err(Refusal::NotARecord);
    }
    let record = fields(word);
    if in_range(record) {
        Ok(record)
    } else {
        Err(Refusal::OutOfRange)
    }
}

// Why there is no record in a block of another code than 0, or with its first bit set.
fn no_record(edition: Edition, code: u8, word: u32) -> Refusal
    requires { code + flag_of word ≡ 0 → ⊥ }
    ensures { read_of edition code word ≡ Err result }
{
    if code != 0 {
        return Refusal::NotARecord;
    }
    if is_filler(edition, word) {
        return Refusal::NotARecord;
    }
    // In 1982 the first bit marks nothing, and is out of range.
    Refusal::OutOfRange
}

// In 1984 a set first bit marks a filler, in 1982 six zeros behind the code.
pub fn is_filler(edition: Edition, word: u32) -> bool
    ensures { result ≡ is_filler edition word }
{
    match edition {
        Edition::Of1984 => word / 2147483648 % 2 == 1,
        Edition::Of1982 => word / 67108864 % 64 == 0,
    }
}

// The word that carries the record, the same in both editions.
pub fn write_record(record: Record) -> Result<u32, Refusal>
    ensures { result ≡ written_of «record» }
{
    if in_range(record) {
        Ok(word_of(record))
    } else {
        Err(Refusal::OutOfRange)
    }
}

// Each field lies in its range.
#[tactic(auto, unfolding(crate::specs::Ranges::in_range))]
pub fn in_range(record: Record) -> bool
    ensures { result ≡ in_range «record» }
{
    kind_in_range(record.leap, record.start_day)
        && day_in_range(record.week, record.weekday)
        && time_in_range(record.hour, record.minute, record.offset)
}

// The fields that a date carries too lie in their ranges: three numbers, since C has them side by side with the others in both structs.
#[tactic(auto, unfolding(crate::specs::Ranges::time_in_range))]
pub fn time_in_range(hour: u8, minute: u8, offset: i8) -> bool
    ensures { result ≡ time_in_range hour minute offset }
{
    hour <= 23 && minute <= 59 && offset_in_range(offset)
}

// The kind of the year.
#[tactic(auto, unfolding(crate::specs::Ranges::kind_in_range))]
fn kind_in_range(leap: u8, start_day: u8) -> bool
    ensures { result ≡ kind_in_range leap start_day }
{
    leap <= 3 && within(1, start_day as u16, 7)
}

// The day in the year.
#[tactic(auto, unfolding(crate::specs::Ranges::day_in_range))]
fn day_in_range(week: u8, weekday: u8) -> bool
    ensures { result ≡ day_in_range week weekday }
{
    within(1, week as u16, 53) && within(1, weekday as u16, 7)
}

// n lies from low to high.
pub fn within(low: u16, n: u16, high: u16) -> bool
    ensures { result ≡ within low n high }
{
    (low..=high).contains(&n)
}

fn offset_in_range(offset: i8) -> bool
    ensures { result ≡ offset_in_range offset }
{
    -32 <= offset && offset <= 31
}

// The fields as they stand in the word, whatever they hold. Each is divided by 2 to the number of bits below it.
fn fields(word: u32) -> Record
    ensures { result ≡ fields_of word }
{
    Record {
        leap: (word / 536870912 % 4) as u8,
        start_day: (word / 67108864 % 8) as u8,
        week: (word / 1048576 % 64) as u8,
        weekday: (word / 131072 % 8) as u8,
        hour: (word / 4096 % 32) as u8,
        minute: (word / 64 % 64) as u8,
        offset: offset_of((word % 64) as u8),
    }
}

// Each field follows the one before it, the most significant first; the flag is 0.
fn word_of(record: Record) -> u32
    requires { in_range «record» ≡ true }
    ensures { result ≡ word_of «record» }
{
    let kind = record.leap as u32 * 8 + record.start_day as u32;
    let day = (kind * 64 + record.week as u32) * 8 + record.weekday as u32;
    let time = (day * 32 + record.hour as u32) * 64 + record.minute as u32;
    time * 64 + six_of(record.offset) as u32
}

// Six bits as a number of half hours, in two's complement.
fn offset_of(six: u8) -> i8
    requires { six < 64 }
    ensures { result ≡ offset_of six }
{
    if six < 32 { six as i8 } else { six as i8 - 64 }
}

// The six bits of a number of half hours.
fn six_of(offset: i8) -> u8
    requires { offset_in_range offset ≡ true }
    ensures { result ≡ six_of offset }
{
    if offset < 0 {
        (offset + 64) as u8
    } else {
        offset as u8
    }
}
