// The search for the change: the circuit is turned backwards from what the block leaves.
ghost use Rattle.std.specs.Prelude.{◌≡◌, ◌<◌, ◌≤◌, ◌*◌, ◌^◌};
ghost use Rattle.block.specs.Bits.{bits_of};
ghost use Rattle.block.specs.Block.{inverted};
ghost use Rattle.block.specs.Division.{remainder, step_bit};
ghost use Rattle.mending.specs.Search.{TurnedBack, FromFirst};

use crate::Change;
use block::circuit::{GENERATOR, remainder, turn};

// What is left after some turns back: the last of the changed places have as many behind them as it was turned.
#[derive(Drop)]
pub struct Turned {
    pub rest: u32,
    pub behind: u32,
}

// What all fifty bits leave, the first inverted.
pub fn left_by(block: u64) -> u32
    ensures { result ≡ remainder (inverted (bits_of 50 block)) }
{
    let inverted = block ^ 0x2_0000_0000_0000;
    turn(remainder(inverted / 2), (inverted % 2) as u8) as u32
}

// One turn backwards, a division by x: every place moves down. A 1 in the lowest place was brought by the wires, and then what they
// brought to the others is taken out.
fn turn_back(register: u32) -> u32
    requires { register < 8192 }
    ensures { (step_bit result 0 ≡ register) × (result < 8192) }
{
    register / 2 ^ register % 2 * ((GENERATOR / 2) as u32)
}

// Turns back, once a place, until what is left fits in six places or they are the first six.
pub fn turned_back(left: u32) -> Turned
    requires { left < 8192 }
    ensures { TurnedBack left result.rest result.behind }
{
    let mut rest = left;
    for behind in 0..44 {
        if rest < 64 {
            return Turned { rest, behind };
        }
        rest = turn_back(rest);
    }
    Turned { rest, behind: 44 }
}

// Moves a pattern up to its first changed place; what comes in past the end is 0.
pub fn from_first(rest: u32, behind: u32) -> Change
    requires { (0 < rest) × (rest < 64) × (behind ≤ 44) }
    ensures { FromFirst (rest * 2 ^ behind) result.place result.pattern }
{
    let up = rest.leading_zeros() - 26;
    Change {
        place: (44 - behind + up) as u8,
        pattern: (rest << up) as u8,
    }
}
