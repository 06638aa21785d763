// The state in both layouts, taken apart and put together.
ghost use Rattle.std.specs.Prelude.{◌≡◌, ◌<◌, ◌≤◌, ◌-◌, ◌*◌, ◌^◌};
ghost use Rattle.receiver.specs.Packed.{packed_of, packing_of, unpacked};
ghost use Rattle.receiver.specs.States.{lock_in};

use crate::windows::{Window, weight};
use crate::{PackedState, State};
use locking::Lock;
use refusal::Refusal;
use timekeeping::Time;

pub fn lock_in(state: PackedState) -> Lock
    ensures { result ≡ lock_in (unpacked state) }
{
    let held = state.held;
    let time = Time {
        kind: state.time,
        held,
        age: state.age,
    };
    Lock {
        mode: state.mode,
        good: state.good,
        bad: state.bad,
        time,
    }
}

pub fn packed_of(lock: Lock, waiting: u8, bits: u64) -> PackedState
    ensures { result ≡ packed_of lock waiting bits }
{
    let time = lock.time;
    let held = time.held;
    PackedState {
        mode: lock.mode,
        good: lock.good,
        bad: lock.bad,
        waiting,
        bits,
        time: time.kind,
        held,
        age: time.age,
    }
}

// The state in which the bits of a window wait: the first of them in place 49.
pub fn kept(lock: Lock, window: Window) -> PackedState
    ensures { result ≡ packed_of lock window.waiting (window.bits * 2 ^ (50 - window.waiting)) }
{
    packed_of(
        lock,
        window.waiting as u8,
        window.bits * weight(window.waiting),
    )
}

// The fifty places become one number, where each holds a bit.
impl TryFrom<State> for PackedState {
    type Error = Refusal;

    ghost try_from_gives = { λ state result. result ≡ packing_of state };

    fn try_from(state: State) -> Result<PackedState, Refusal> {
        let bits = block::pack(&state.bits)?;
        Ok(PackedState {
            mode: state.mode,
            good: state.good,
            bad: state.bad,
            waiting: state.waiting,
            bits,
            time: state.time,
            held: state.held,
            age: state.age,
        })
    }
}

// And back.
impl From<PackedState> for State {
    ghost from_gives = { λ packed state. state ≡ unpacked packed };

    fn from(packed: PackedState) -> State {
        let mut bits = [0u8; 50];
        // Fifty places, and a number of fifty bits: this is never refused.
        block::unpack(packed.bits % 0x4_0000_0000_0000, &mut bits).unwrap();
        State {
            mode: packed.mode,
            good: packed.good,
            bad: packed.bad,
            waiting: packed.waiting,
            bits,
            time: packed.time,
            held: packed.held,
            age: packed.age,
        }
    }
}
