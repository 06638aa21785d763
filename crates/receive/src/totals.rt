// What is kept from one piece of the input to the next, and what there is to say about lock.
ghost use Rattle.std.specs.Prelude.{◌≡◌, ◌<◌, ◌≤◌, true, length};
ghost use Rattle.block.specs.Bits.{Bits};
ghost use Rattle.receiver.specs.Packed.{packed_proper};
ghost use Rattle.receive.specs.Totals.{edition, said_at, heard_of};

use locking::Lock;
use receiver::{PackedState, Until, run_until};
use record::Edition;

// The totals over the whole input so far, and the state after it, its waiting bits one number.
#[derive(Clone, Copy)]
pub struct Kept {
    pub fed: u64,
    pub good: u64,
    pub bad: u64,
    pub passed: u64,
    pub state: PackedState,
}

// That lock came or went with the bit of this number.
#[derive(Clone, Copy)]
pub enum Said {
    Came(u64),
    Went(u64),
}

// What is kept after the bits that were fed, how many these were, and what there is to say of the last.
#[derive(Clone, Copy)]
pub struct Heard {
    pub kept: Kept,
    pub fed: usize,
    pub said: Option<Said>,
}

// By the modes before and after bit n.
#[tactic(auto, unfolding(crate::specs::Totals::said_at, receiver::specs::Changes::same_lock))]
fn said_at(before: u8, after: u8, n: u64) -> Option<Said>
    ensures { result ≡ said_at before after n }
{
    match (before == Lock::LOCKED, after == Lock::LOCKED) {
        (false, true) => Some(Said::Came(n)),
        (true, false) => Some(Said::Went(n)),
        _ => None,
    }
}

// Feeds the bits up to the first with which lock comes or goes, or all.
pub fn hear(kept: Kept, bits: &[u8]) -> Heard
    requires { (packed_proper edition kept.state ≡ true) × Bits bits.now × (0 < length bits.now) × (length bits.now ≤ 65536) }
    ensures { result ≡ heard_of kept bits.now }
{
    let before = kept.state;
    // Nothing that is told depends on a record, so either edition would do.
    let stretch = run_until(Edition::Of1984, before, bits, Until::LockChange);
    let ran = stretch.ran;
    let counts = ran.counts;
    let state = ran.state;
    let fed = kept.fed.wrapping_add(stretch.fed as u64);
    Heard {
        kept: Kept {
            fed,
            good: kept.good.wrapping_add(u64::from(counts.good)),
            bad: kept.bad.wrapping_add(u64::from(counts.bad)),
            passed: kept.passed.wrapping_add(u64::from(counts.passed)),
            state,
        },
        fed: stretch.fed,
        said: said_at(before.mode, state.mode, fed),
    }
}
