// The leap code: how near a leap year is, by edition.
ghost use Rattle.std.specs.Prelude.{◌≡◌, ◌≤◌};
ghost use Rattle.calendar.specs.LeapCodes.{leap_code, says_leap, next_leap_code};

use record::Edition;

// The codes of 1982: of a leap year, of the three years after it, and each one's next.
const CODES_OF_1982: [u8; 4] = [3, 2, 0, 1];

const NEXT_IN_1982: [u8; 4] = [1, 3, 0, 2];

// The code of a year.
pub fn leap_code(edition: Edition, year: u16) -> u8
    ensures { result ≡ leap_code edition year }
{
    let since = year % 4;
    match edition {
        Edition::Of1984 => since as u8,
        Edition::Of1982 => CODES_OF_1982[since as usize],
    }
}

// The code says that its own year is leap.
pub fn says_leap(edition: Edition, code: u8) -> bool
    ensures { result ≡ says_leap edition code }
{
    match edition {
        Edition::Of1984 => code == 0,
        Edition::Of1982 => code == 3,
    }
}

// The code of the next year.
pub fn next_leap_code(edition: Edition, code: u8) -> u8
    requires { code ≤ 3 }
    ensures { result ≡ next_leap_code edition code }
{
    match edition {
        Edition::Of1984 => (code + 1) % 4,
        Edition::Of1982 => NEXT_IN_1982[code as usize],
    }
}
