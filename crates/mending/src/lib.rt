// A burst put right: the one change within six neighbouring places that makes a logged block good.
#![tactic(auto)]

mod search;

ghost use Rattle.std.specs.Prelude.{◌<◌, ◌^◌, Ok, Err, MatchResult};
ghost use Rattle.std.specs.Int.Bits.{bit_xor};
ghost use Rattle.block.specs.Bits.{bits_of};
ghost use Rattle.mending.specs.Mending.{Mends};

use refusal::Refusal;
use search::{from_first, left_by, turned_back};

// The first place that was changed, and the pattern of the six places from it, the first highest; zeros where nothing was changed.
#[derive(Clone, Copy)]
pub struct Change {
    pub place: u8,
    pub pattern: u8,
}

// A change, and the places that have to change for it, as the number of a block.
#[derive(Clone, Copy)]
struct Found {
    change: Change,
    places: u64,
}

// The change that the number of fifty bits asks for: none where it is good.
fn change_of(block: u64) -> Result<Found, Refusal>
    requires { block < 2 ^ 50 }
    ensures { MatchResult result (λ found. (found.places < 2 ^ 50) × Mends (bits_of 50 block) (Ok found.change) (bits_of 50 (bit_xor block found.places))) (λ refusal. Mends (bits_of 50 block) (Err refusal) (bits_of 50 block)) }
{
    let turned = turned_back(left_by(block));
    let rest = turned.rest;
    let behind = turned.behind;
    if 63 < rest {
        return Err(Refusal::NoSuchChange);
    }
    let places = (rest as u64) << behind;
    if block ^ places < 0x2_0000_0000_0000 {
        return Err(Refusal::NoSuchChange);
    }
    if rest == 0 {
        let change = Change {
            place: 0,
            pattern: 0,
        };
        return Ok(Found { change, places: 0 });
    }
    Ok(Found {
        change: from_first(rest, behind),
        places,
    })
}

// Mends a block where it stands.
pub fn mend(bits: &mut [u8]) -> Result<Change, Refusal>
    ensures { Mends bits.old result bits.new }
{
    let number = block::pack(bits)?;
    let found = change_of(number)?;
    if found.places == 0 {
        return Ok(found.change);
    }
    block::unpack(number ^ found.places, bits)?;
    Ok(found.change)
}
