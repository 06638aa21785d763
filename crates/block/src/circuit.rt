// The report's division circuit: a register of thirteen bits that turns once for each bit (BBC RD 1984/19, 5.3 and the Appendix).
ghost use Rattle.std.specs.Prelude.{◌≡◌, ◌<◌, ◌≤◌, ◌+◌, ◌*◌, ◌/◌, ◌%◌, ◌^◌};
ghost use Rattle.block.specs.Bits.{bits_of};
ghost use Rattle.block.specs.Division.{reduce, step_bit, remainder_from, remainder};

// x^13+x^12+x^11+x^10+x^7+x^6+x^5+x^4+x^2+1, a digit for each power: below x^13, a 1 is a wire from the top back into that place.
pub const GENERATOR: u64 = 0b11_1100_1111_0101;

// One turn: every place moves up, the bit is let in below, and a 1 that has left the top place is fed back through the wires.
#[tactic(auto, using(std::proofs::lemmas::Bool::Decides::nat_tests), unfolding(crate::specs::Division::step_bit))]
pub fn turn(register: u32, bit: u8) -> u64
    ensures { result ≡ step_bit register bit }
{
    let moved = (register as u64) * 2 + (bit as u64);
    if moved < 0x2000 {
        moved
    } else {
        moved ^ GENERATOR
    }
}

// What is fed back where bits that are not let in yet stand behind the register. To take the generator off makes the number smaller
// where a 1 has left the top place, and larger elsewhere; asked so, the processor does not have to guess.
fn feed_back(moved: u64, behind: u32) -> u64
    requires { (behind ≤ 50) × (moved / 2 ^ behind < 16384) }
    ensures { result ≡ reduce (moved / 2 ^ behind) * 2 ^ behind + moved % 2 ^ behind }
{
    let fed = moved ^ (GENERATOR << behind);
    if fed < moved { fed } else { moved }
}

// A turn for each of a number's lowest bits, as many as there are places, most significant first. What stands above them is in
// the register; they are let in where they stand, so that the register moves down along the number.
fn let_in(number: u64, places: u32) -> u64
    requires { (number / 2 ^ places < 8192) × (places ≤ 50) }
    ensures { result ≡ remainder_from (number / 2 ^ places) (bits_of places number) }
{
    let mut rest = number;
    for behind in (0..places).rev() {
        rest = feed_back(rest, behind);
    }
    rest
}

// What is left of a number's lowest 49 bits. The first thirteen fill the register as they are, since nothing leaves its top place
// before; a turn for each of the others.
pub fn remainder(number: u64) -> u32
    ensures { result ≡ remainder (bits_of 49 number) }
{
    let_in(number % 0x2_0000_0000_0000, 36) as u32
}
