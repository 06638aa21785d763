// The plain remainder of a long string of bits, and that of two strings joined, from the remainder of each.
#![tactic(auto)]

ghost use Rattle.std.specs.Prelude.{◌≡◌, ◌<◌};
ghost use Rattle.joining.specs.Joining.{times, power_of_x, remainder_of, join_of};

use block::circuit::turn;
use refusal::Refusal;

// The plain remainder of a string: a turn of the circuit for each bit, and none after the last.
pub fn remainder_of(bits: &[u8]) -> Result<u16, Refusal>
    ensures { result ≡ remainder_of bits.now }
{
    if 65_536 < bits.len() {
        return Err(Refusal::StringTooLong);
    }
    let mut register: u32 = 0;
    for &bit in bits {
        if 1 < bit {
            return Err(Refusal::NotABit);
        }
        register = turn(register, bit) as u32;
    }
    Ok(register as u16)
}

// The product of two remainders, reduced by the generator: the second is added where the first has a coefficient, lowest first, and
// moves up one place through the circuit for the next.
fn times(first: u32, second: u32) -> u32
    requires { (first < 8192) × (second < 8192) }
    ensures { result ≡ times first second }
{
    let mut rest = first;
    let mut moved = second;
    let mut product: u32 = 0;
    // It ends with the number at hand and counts nothing: a `for` over thirteen places would turn on after the last coefficient.
    while 0 < rest {
        product ^= rest % 2 * moved;
        moved = turn(moved, 0) as u32;
        rest /= 2;
    }
    product
}

// x raised to a length, reduced by the generator: the square of x to half the length, times x where the length is odd. Below x^13
// nothing is to be reduced.
fn power_of_x(length: u32) -> u32
    ensures { result ≡ power_of_x length }
{
    if length < 13 {
        return 1 << length;
    }
    let half = power_of_x(length / 2);
    let square = times(half, half);
    if length % 2 == 0 {
        return square;
    }
    turn(square, 0) as u32
}

// The remainder of two strings joined, from each one's remainder and the second's length: past the second's bits the first's moves
// up as many places.
pub fn join(first: u16, second: u16, length: u32) -> Result<u16, Refusal>
    ensures { result ≡ join_of first second length }
{
    if 65_536 < length {
        return Err(Refusal::StringTooLong);
    }
    if 8_191 < first {
        return Err(Refusal::NotARemainder);
    }
    if 8_191 < second {
        return Err(Refusal::NotARemainder);
    }
    let power = power_of_x(length);
    let moved = times(first as u32, power);
    Ok((moved as u16) ^ second)
}
