// Why something is refused: one case for each row of document 01, "Numbers given when something is refused", and for each
// refusal of document 02's requests that are built.
#![tactic(auto)]

ghost use Rattle.std.specs.Prelude.{◌≡◌};
ghost use Rattle.refusal.specs.Numbers.{number_of};

#[derive(Clone, Copy, PartialEq, Eq)]
pub enum Refusal {
    // A bit is neither 0 nor 1.
    NotABit = 1,
    // A block slice is not 50 long.
    WrongLength = 2,
    // The prefix is 0.
    WrongPrefix = 3,
    // The check word is not the remainder.
    WrongCheckWord = 4,
    // The code is not 0, or the word is a filler.
    NotARecord = 5,
    // A field or a code is out of range, or there is no such month, day or edition.
    OutOfRange = 6,
    // Week 53 in a year without one.
    NotInYear = 7,
    // A first year, or the civil or coded year of a written date, is outside the calendar.
    WrongYear = 8,
    // A run is longer than 65,536, or takes the bits that a watch was fed past 2^64 - 1.
    RunTooLong = 9,
    // The state, the watch or the report is not proper.
    Improper = 10,
    // The board handed over fewer than 64 readings.
    TooFewReadings = 11,
    // A reading is not from -45 to 45, or the margin not from 0 to 90.
    OutOfDegrees = 12,
    // Both pairings of the readings have as many pairs of opposite sign.
    EqualPairings = 13,
    // A block's number has a bit above place 49.
    NumberTooWide = 14,
    // No change within six neighbouring places makes a block good.
    NoSuchChange = 15,
    // More than one such change makes it good.
    SeveralChanges = 16,
    // A string, or the second of two that are joined, is longer than 65,536.
    StringTooLong = 17,
    // A remainder that is to be joined is above 8,191.
    NotARemainder = 18,
    // A frame is not 12 long, or a field to be written is too wide.
    WrongSize = 19,
    // A fixed bit of a frame is wrong.
    WrongFixedBits = 20,
    // No codeword differs from a frame's symbols in at most three places.
    NoCodeword = 21,
    // The CRC does not agree with the mended bytes.
    WrongCrc = 22,
    // A journal's trailer does not fit.
    WrongTrailer = 23,
    // A wanted entry's bit number is not above that of the one before.
    NotRising = 24,
    // A report would have more than 2^32 blocks.
    TooManyBlocks = 30,
    // A slice is too short for the bits.
    NoRoom = 31,
}

// The number that the documents give the refusal.
impl From<Refusal> for u8 {
    ghost from_gives = { λ refusal number. number ≡ number_of refusal };

    fn from(refusal: Refusal) -> u8 {
        refusal as u8
    }
}
