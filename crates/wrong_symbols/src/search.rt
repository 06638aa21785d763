// The places of at most three wrong symbols, from the power sums of a word.
ghost use Rattle.std.specs.Prelude.{◌&&◌, not, ◌≡◌, eqb};
ghost use Rattle.power_sums.specs.Sums.{take_away, fits};
ghost use Rattle.wrong_symbols.specs.Search.{Second, Pair, minor_of, minors_of, two_places, may_be};

use field16::times;
use power_sums::{fit, five, four};

// Three minors of five numbers, which say cheaply that no second place can be found.
#[derive(Clone, Copy)]
struct Minors {
    one: u8,
    sum: u8,
    product: u8,
}

fn minor(a: u8, b: u8, c: u8, d: u8) -> u8
    ensures { result ≡ minor_of a b c d }
{
    times(a, b) ^ times(c, d)
}

fn minors_in(t: [u8; 5]) -> Minors
    ensures { result ≡ minors_of t }
{
    Minors {
        one: minor(t[1], t[1], t[0], t[2]),
        sum: minor(t[0], t[3], t[1], t[2]),
        product: minor(t[1], t[3], t[2], t[2]),
    }
}

fn two_places(t: [u8; 5], m: Minors) -> bool
    ensures { result ≡ two_places t m }
{
    times(t[4], m.one) ^ (times(t[3], m.sum) ^ times(t[2], m.product)) == 0
}

fn may_be(m: Minors, y: u8) -> bool
    ensures { result ≡ may_be m y }
{
    times(y, times(y, m.one) ^ m.sum) == m.product
}

// Whether y is a second place beside x.
#[tactic(auto, using(crate::proofs::Filter::no_root))]
fn is_second(t: [u8; 5], m: Minors, x: u8, y: u8) -> bool
    requires { m ≡ minors_of t }
    ensures { result ≡ not (eqb x y) && fits x y (take_away y t) }
{
    x != y && may_be(m, y) && fit(x, y, four(t, y))
}

#[tactic(auto, using(crate::proofs::Filter::no_two))]
fn second(t: [u8; 5], x: u8) -> Option<u8>
    ensures { Second t x result }
{
    let m = minors_in(t);
    if !two_places(t, m) {
        return None;
    }
    // Tried with `find`: the proof did not close.
    for y in 1..16u8 {
        if is_second(t, m, x, y) {
            return Some(y);
        }
    }
    None
}

// Two places of the wrong symbols.
#[derive(Clone, Copy)]
pub struct Places {
    pub first: u8,
    pub second: u8,
}

// None where there are more than three.
pub fn find_places(s: [u8; 6]) -> Option<Places>
    ensures { Pair s result }
{
    // Tried with `find_map`: the proof did not close, with a contract on the closure either.
    for first in 1..16u8 {
        if let Some(second) = second(five(s, first), first) {
            return Some(Places { first, second });
        }
    }
    None
}
