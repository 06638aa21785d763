// The receiver: bits wait in a window of fifty, which is judged when it is full; a step and a run.
#![tactic(auto)]

mod states;
mod windows;

ghost use Rattle.std.specs.Prelude.{true, not, ◌≡◌, ◌≤◌, ◌<◌, ◌+◌, ◌-◌, ◌*◌, ◌^◌, length};
ghost use Rattle.refusal.specs.Numbers.{number_of};
ghost use Rattle.locking.specs.Modes.{no_blocks};
ghost use Rattle.receiver.specs.Changes.{same_lock, runs_on, up_to, with_fed, stretch_from, stretch_of};
ghost use Rattle.receiver.specs.Packed.{fresh_packed, unpacked, packed_proper, ended_packed, run_packed, fed_packed};
ghost use Rattle.receiver.specs.Runs.{later, plus, counts_of, refused_run, run_of, fed_of};
ghost use Rattle.receiver.specs.States.{fresh_of};

use block::read_by;
use locking::{Blocks, Lock, judge};
use record::{Edition, Record};
use refusal::Refusal;
use states::{kept, lock_in, packed_of};
use windows::{Window, weight};

// The state, as it is lent: plain numbers, and what is not in use is 0.
#[repr(C)]
#[derive(Clone, Copy)]
pub struct State {
    pub mode: u8,
    pub good: u8,
    pub bad: u8,
    pub waiting: u8,
    pub bits: [u8; 50],
    pub time: u8,
    pub held: Record,
    pub age: u8,
}

// The same with its waiting bits as one number: the first in place 49, the next in 48, and what is not in use is 0. Two structs, and
// not one over the type of the bits: what `lw_feed` and `lw_feed_packed` are lent can have no type parameter.
#[repr(C)]
#[derive(Clone, Copy)]
pub struct PackedState {
    pub mode: u8,
    pub good: u8,
    pub bad: u8,
    pub waiting: u8,
    pub bits: u64,
    pub time: u8,
    pub held: Record,
    pub age: u8,
}

// What a run counts, and the remainder of its last bad block refused with 4. Plain numbers, since C reads them: the refusal's, 0 for none.
#[repr(C)]
#[derive(Default, Drop)]
pub struct Counts {
    pub refusal: u8,
    pub good: u32,
    pub bad: u32,
    pub passed: u32,
    pub waiting: u32,
    pub remainder: u16,
}

// A run's counts and what it ran into, as it is then.
#[derive(Drop)]
pub struct Ran<S> {
    pub counts: Counts,
    pub state: S,
}

// Where a run ends: with its last bit, or before it with the bit with which lock comes or goes, or with one with which that or the
// kind of the time changes. An enum and no closure: the laws over runs ask of each way that it goes on behind a bit that changes nothing.
#[derive(Clone, Copy)]
pub enum Until {
    LastBit,
    LockChange,
    AnyChange,
}

// A run, and how many bits it fed.
#[derive(Drop)]
pub struct Stretch {
    pub ran: Ran<PackedState>,
    pub fed: usize,
}

// Hunting, with nothing waiting and no time.
pub fn fresh_packed() -> PackedState
    ensures { result ≡ fresh_packed }
{
    packed_of(locking::fresh_lock(), 0, 0)
}

// Whether a state is proper, by the edition of the call.
#[tactic(auto, using(std::proofs::lemmas::Bool::Decides::nat_tests, crate::proofs::Numbers::proper_number), unfolding(crate::specs::Packed::packed_proper, crate::specs::States::proper_of))]
pub fn is_proper(edition: Edition, state: PackedState) -> bool
    ensures { result ≡ packed_proper edition state }
{
    let waiting = state.waiting as u32;
    let bits = state.bits;
    if 0x3_FFFF_FFFF_FFFF < bits {
        return false;
    }
    if 49 < waiting {
        return false;
    }
    if bits % weight(waiting) == 0 {
        locking::is_proper(edition, lock_in(state))
    } else {
        false
    }
}

// Where a run ends. Of the bits that had waited and were fed each block took fifty; the others wait or were passed over.
fn counted(refusal: u8, blocks: Blocks, waited: u32, fed: usize, state: PackedState) -> Stretch
    requires { (50 * (blocks.good + blocks.bad) + state.waiting ≤ waited + fed) × (waited + fed < 2 ^ 32) }
    ensures { result ≡ with_fed (ended_packed refusal blocks (waited + fed - 50 * (blocks.good + blocks.bad) - state.waiting) state) fed }
{
    let waiting = state.waiting as u32;
    let counts = Counts {
        refusal,
        good: blocks.good,
        bad: blocks.bad,
        passed: waited + (fed as u32) - 50 * (blocks.good + blocks.bad) - waiting,
        waiting,
        remainder: blocks.remainder,
    };
    let ran = Ran { counts, state };
    Stretch { ran, fed }
}

// Refused before any bit is fed: nothing is counted or told, and the state is as it was.
pub fn refused<S>(why: Refusal, state: S) -> Ran<S>
    ensures { result ≡ refused_run (number_of why) state }
{
    let counts = Counts {
        refusal: u8::from(why),
        ..Counts::default()
    };
    Ran { counts, state }
}

// Of two remainders the later one, but 0 tells nothing.
#[tactic(auto, using(std::proofs::lemmas::Bool::Decides::nat_tests))]
pub fn later(before: u16, after: u16) -> u16
    ensures { result ≡ later before after }
{
    if after == 0 {
        return before;
    }
    after
}

// Blocks one after the other.
fn more(before: Blocks, after: Blocks) -> Blocks
    requires { (before.good + after.good < 2 ^ 32) × (before.bad + after.bad < 2 ^ 32) }
    ensures { result ≡ plus before after }
{
    Blocks {
        good: before.good + after.good,
        bad: before.bad + after.bad,
        remainder: later(before.remainder, after.remainder),
    }
}

// Whether lock comes or goes, by the modes before and after.
#[tactic(auto, using(std::proofs::lemmas::Bool::Decides::nat_tests), unfolding(crate::specs::Changes::same_lock))]
fn lock_changes(before: u8, after: u8) -> bool
    ensures { result ≡ not (same_lock before after) }
{
    if before == Lock::LOCKED {
        return after != Lock::LOCKED;
    }
    after == Lock::LOCKED
}

// Whether a run ends here, by the locks before and after.
#[tactic(auto, using(std::proofs::lemmas::Bool::Decides::nat_tests), unfolding(crate::specs::Changes::runs_on))]
fn ends(until: Until, before: Lock, after: Lock) -> bool
    ensures { result ≡ not (runs_on until before after) }
{
    let changes = lock_changes(before.mode, after.mode);
    match until {
        Until::LastBit => false,
        Until::LockChange => changes,
        Until::AnyChange => {
            if changes {
                return true;
            }
            let held = before.time;
            let holds = after.time;
            held.kind != holds.kind
        }
    }
}

// The bits one after the other. The circuit turns once for each; a full window is passed over by one bit, or judged and used up.
fn feed_all(edition: Edition, state: PackedState, bits: &[u8], until: Until) -> Stretch
    requires { (packed_proper edition state ≡ true) × (length bits.now ≤ 65536) }
    ensures { result ≡ stretch_from edition (up_to edition until (unpacked state) bits.now) 0 no_blocks 0 (unpacked state) }
{
    let mut lock = lock_in(state);
    let mut window = Window::of(state);
    let waited = window.waiting;
    let mut blocks = Blocks::default();
    for (i, bit) in bits.iter().enumerate() {
        if 1 < *bit {
            let why = u8::from(Refusal::NotABit);
            return counted(why, blocks, waited, i, kept(lock, window));
        }
        window = window.join(*bit);
        if window.waiting == 50 {
            let left = window.behind_first();
            if window.is_passed_over(lock.mode) {
                window = window.move_on(left);
            } else {
                let judged = judge(edition, lock, read_by(window.bits, left as u16));
                let before = lock;
                lock = judged.lock;
                blocks = more(blocks, judged.blocks);
                window = Window::empty();
                if ends(until, before, lock) {
                    return counted(0, blocks, waited, i + 1, kept(lock, window));
                }
            }
        }
    }
    counted(0, blocks, waited, bits.len(), kept(lock, window))
}

// A run of the bits up to where it is to end.
#[tactic(auto, using(std::proofs::lemmas::Bool::Decides::nat_tests), unfolding(crate::specs::Changes::stretch_of))]
pub fn run_until(edition: Edition, state: PackedState, bits: &[u8], until: Until) -> Stretch
    ensures { result ≡ stretch_of edition until state bits.now }
{
    let long = 65536 < bits.len();
    let improper = !is_proper(edition, state);
    if long {
        let ran = refused(Refusal::RunTooLong, state);
        return Stretch { ran, fed: 0 };
    }
    if improper {
        let ran = refused(Refusal::Improper, state);
        return Stretch { ran, fed: 0 };
    }
    feed_all(edition, state, bits, until)
}

// A run of all the bits, by value.
pub fn run_packed(edition: Edition, state: PackedState, bits: &[u8]) -> Ran<PackedState>
    ensures { result ≡ run_packed edition state bits.now }
{
    let all = run_until(edition, state, bits, Until::LastBit);
    all.ran
}

// One bit, by value: the run of that bit alone.
#[tactic(auto, using(crate::proofs::Layouts::fed_packed_run))]
pub fn step_packed(edition: Edition, state: PackedState, bit: u8) -> Ran<PackedState>
    ensures { result ≡ fed_packed edition state bit }
{
    run_packed(edition, state, &[bit])
}

// ---- with the waiting bits in fifty places: packed, run and unpacked. `lw_run` and `lw_feed` take this layout, `lw_run_packed` and
// `lw_feed_packed` the other

pub fn fresh() -> State
    ensures { result ≡ fresh_of }
{
    State::from(fresh_packed())
}

pub fn run(edition: Edition, state: State, bits: &[u8]) -> Ran<State>
    ensures { result ≡ run_of edition state bits.now }
{
    let Ok(packed) = PackedState::try_from(state) else {
        let why = if 65536 < bits.len() {
            Refusal::RunTooLong
        } else {
            Refusal::Improper
        };
        return refused(why, state);
    };
    let ran = run_packed(edition, packed, bits);
    let state = State::from(ran.state);
    let counts = ran.counts;
    Ran { counts, state }
}

#[tactic(auto, using(crate::proofs::Together::fed_run))]
pub fn step(edition: Edition, state: State, bit: u8) -> Ran<State>
    ensures { result ≡ fed_of edition state bit }
{
    run(edition, state, &[bit])
}
