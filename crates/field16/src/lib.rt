// The field of sixteen elements, which the symbols of the Polish frame are. Of a larger number the lowest four bits count.
// No type for an element: product and quotient answer for every number, and only three private functions, `inverse` here and `power_of` and
// `symbol_at` in wrong_symbols, ask for one below 16.
#![tactic(auto)]

ghost use Rattle.std.specs.Prelude.{◌≡◌, ◌<◌};
ghost use Rattle.field16.specs.Field as field;

// The product without carries; what stands above x^3 comes back times x + 1.
pub fn times(a: u8, b: u8) -> u8
    ensures { result ≡ field.times a b }
{
    let low = a % 16;
    let product = b % 2 * low
        ^ (b / 2 % 2 * (low * 2) ^ (b / 4 % 2 * (low * 4) ^ b / 8 % 2 * (low * 8)));
    let over = product / 16;
    product % 16 ^ (over ^ over * 2)
}

// One over an element, 0 for 0: sixteen answers of four bits in one number, the lowest first.
// Tried as an array: frames with three wrong symbols are read a tenth slower.
fn inverse(y: u8) -> u8
    requires { y < 16 }
    ensures { result ≡ field.inverse_of y }
{
    ((0x834a_5c2f_67bd_e910u64 >> (y * 4)) % 16) as u8
}

// One element over another, 0 over 0.
pub fn over(y: u8, x: u8) -> u8
    ensures { result ≡ field.times y (field.inverse_of x) }
{
    times(y, inverse(x % 16))
}
