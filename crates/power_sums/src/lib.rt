// The power sums of a word, its values at a^1 to a^6, and what is left of them when a place is taken away. A place is told by its power of a, so by
// an element: wherever a symbol stands alone, each power sum is the place times the one before.
#![tactic(auto)]

ghost use Rattle.std.specs.Prelude.{◌≡◌};
ghost use Rattle.big_endian.specs.Digits.{digits};
ghost use Rattle.field16.specs.Words.{at};
ghost use Rattle.power_sums.specs.Sums.{six_sums, take_away, goes_on, third_of, apart, fits};

use field16::{over, times};

// The value of six symbols at x, from the highest power down. The symbols are one number, since `explain` is promised of a number.
fn value_at(x: u8, symbols: u32) -> u8
    ensures { result ≡ at x (digits 4 6 symbols) }
{
    let mut value: u8 = 0;
    for left in (0..6u32).rev() {
        value = times(x, value) ^ ((symbols >> (left * 4)) % 16) as u8;
    }
    value
}

// The power sums of six symbols: their values at a^1 to a^6.
pub fn sums(symbols: u32) -> [u8; 6]
    ensures { result ≡ six_sums (digits 4 6 symbols) }
{
    let places = [2, 4, 8, 3, 6, 12];
    let mut values = places;
    // A loop: with the array's own `map`, which ends in a trap, a frame that is refused at once took twice as long.
    for (i, value) in values.iter_mut().enumerate() {
        *value = value_at(places[i], symbols);
    }
    values
}

// The five numbers that are left of six when a place is taken away.
pub fn five(s: [u8; 6], x: u8) -> [u8; 5]
    ensures { result ≡ take_away x s }
{
    [
        s[1] ^ times(x, s[0]),
        s[2] ^ times(x, s[1]),
        s[3] ^ times(x, s[2]),
        s[4] ^ times(x, s[3]),
        s[5] ^ times(x, s[4]),
    ]
}

// The four that are left of five: with any sixth number behind them, the first four of what is left.
// No one function for both sizes: the size of what is left would be computed from the other, which the language lacks.
pub fn four(t: [u8; 5], x: u8) -> [u8; 4]
    ensures { result ≡ take_away x t }
{
    let left = five([t[0], t[1], t[2], t[3], t[4], 0], x);
    [left[0], left[1], left[2], left[3]]
}

// The place that four numbers may be the powers of.
#[tactic(auto, unfolding(crate::specs::Sums::third_of))]
pub fn third(u: [u8; 4]) -> u8
    ensures { result ≡ third_of u }
{
    if u[0] == 0 { 1 } else { over(u[1], u[0]) }
}

#[tactic(auto, using(crate::proofs::Tests::three_tests))]
fn goes_on(x: u8, u: [u8; 4]) -> bool
    ensures { result ≡ goes_on x u }
{
    u[1] == times(x, u[0]) && u[2] == times(x, u[1]) && u[3] == times(x, u[2])
}

fn is_apart(x: u8, y: u8, z: u8) -> bool
    ensures { result ≡ apart x y z }
{
    x != 0 && x != y && x != z
}

// Whether a third place explains what is left after two are taken away.
#[tactic(auto, unfolding(crate::specs::Sums::fits))]
pub fn fit(x: u8, y: u8, u: [u8; 4]) -> bool
    ensures { result ≡ fits x y u }
{
    let z = third(u);
    goes_on(z, u) && (u[0] == 0 || is_apart(z, x, y))
}
