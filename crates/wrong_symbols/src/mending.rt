// The wrong symbols, once two of their places are found.
ghost use Rattle.std.specs.Prelude.{◌≡◌, ◌<◌};
ghost use Rattle.field16.specs.Words.{a_to, Symbols};
ghost use Rattle.wrong_symbols.specs.Explained.{Mistakes};
ghost use Rattle.wrong_symbols.specs.Search.{Found, Single, last_of, middle_of, first_of};

use crate::search::Places;
use field16::{over, times};
use power_sums::{five, four, third};

// The power of a that each element is; 0 is none, and is not asked for.
const POWERS: [u8; 16] = [0, 0, 1, 4, 2, 8, 5, 10, 3, 14, 9, 7, 6, 13, 11, 12];

fn power_of(x: u8) -> u8
    requires { (0 < x) × (x < 16) }
    ensures { (result < 15) × (a_to result ≡ x) }
{
    POWERS[x as usize]
}

// A symbol at the place x of a word.
fn symbol_at(x: u8, y: u8) -> u64
    requires { (0 < x) × (x < 16) × (y < 16) }
    ensures { Single x y result }
{
    (y as u64) << (power_of(x) * 4)
}

// Three places as numbers, as the definitions take them: here and in the next two.
// The wrong symbol at z, from what is left when x and y are taken away.
fn last_of(x: u8, y: u8, z: u8, u: u8) -> u8
    ensures { result ≡ last_of x y z u }
{
    over(u, times(z, times(z ^ x, z ^ y)))
}

// The one at y, from what is left when x is taken away.
fn middle_of(x: u8, y: u8, z: u8, t: u8, last: u8) -> u8
    ensures { result ≡ middle_of x y z t last }
{
    over(t ^ times(last, times(z, z ^ x)), times(y, y ^ x))
}

// The one at x.
fn first_of(x: u8, y: u8, z: u8, s: u8, middle: u8, last: u8) -> u8
    ensures { result ≡ first_of x y z s middle last }
{
    over(s ^ (times(last, z) ^ times(middle, y)), x)
}

// The wrong symbols at two places and a third.
pub fn mistakes(s: [u8; 6], places: Places) -> u64
    requires { Symbols s × Found s places }
    ensures { Mistakes s result }
{
    let x = places.first;
    let y = places.second;
    let t = five(s, x);
    let u = four(t, y);
    let z = third(u);
    let last = last_of(x, y, z, u[0]);
    let middle = middle_of(x, y, z, t[0], last);
    let first = first_of(x, y, z, s[0], middle, last);
    symbol_at(x, first) ^ (symbol_at(y, middle) ^ symbol_at(z, last))
}
