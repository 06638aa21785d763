// What is kept from bit to bit, and the block that a bit uses up.
ghost use Rattle.std.specs.Prelude.{◌≡◌};
ghost use Rattle.log_blocks.specs.Log.{heard_of};

use receiver::{PackedState, step_packed};
use record::Edition;

// How many bits were fed, how many blocks these used up, and the state after them.
#[derive(Clone, Copy)]
pub struct Kept {
    pub fed: u64,
    pub blocks: u64,
    pub state: PackedState,
}

// What is kept after a bit, and where it used a block up, as one number the bits that waited with it behind them.
#[derive(Clone, Copy)]
pub struct Heard {
    pub kept: Kept,
    pub block: Option<u64>,
}

// One bit. Nothing that is logged depends on a record, so either edition would do. The waiting bits are in the places from 49 down, so
// where 49 of them wait, place 0 is the bit's.
#[tactic(auto, unfolding(crate::specs::Log::heard_of))]
pub fn hear(kept: Kept, bit: u8) -> Heard
    ensures { result ≡ heard_of kept bit }
{
    let before = kept.state;
    let ran = step_packed(Edition::Of1984, before, bit);
    let counts = ran.counts;
    let used = u64::from(counts.good) + u64::from(counts.bad);
    let block = before.bits.wrapping_add(u64::from(bit));
    Heard {
        kept: Kept {
            fed: kept.fed.wrapping_add(1),
            blocks: kept.blocks.wrapping_add(used),
            state: ran.state,
        },
        block: (0 < used).then_some(block),
    }
}
