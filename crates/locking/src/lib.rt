// Hunting, trying, locked: what a judged window does to the lock, and when a lock is proper.
#![tactic(auto)]

ghost use Rattle.std.specs.Prelude.{◌≡◌};
ghost use Rattle.timekeeping.specs.Times.{no_time};
ghost use Rattle.locking.specs.Locks.{trying, locked, lock_of, fresh_lock, lock_proper};
ghost use Rattle.locking.specs.Modes.{good_block, bad_block, passed_over, hunted, tried, held_on, judged_by};

use block::{Body, Refused};
use record::Edition;
use timekeeping::{Time, is_no_time, no_time};

// A state without its bits.
#[derive(Clone, Copy, Default)]
pub struct Lock {
    // Hunting, trying or locked. A number, since C lends the state as plain numbers and `is_proper` answers for each of them.
    pub mode: u8,
    pub good: u8,
    pub bad: u8,
    pub time: Time,
}

impl Lock {
    pub const HUNTING: u8 = 0;

    pub const TRYING: u8 = 1;

    pub const LOCKED: u8 = 2;

    // Trying, after so many good blocks.
    fn trying(good: u8) -> Lock
        ensures { result ≡ lock_of trying good 0 no_time }
    {
        Lock {
            mode: Lock::TRYING,
            good,
            ..fresh_lock()
        }
    }

    // Locked, after so many bad blocks in a row.
    fn locked(bad: u8, time: Time) -> Lock
        ensures { result ≡ lock_of locked 0 bad time }
    {
        Lock {
            mode: Lock::LOCKED,
            good: 0,
            bad,
            time,
        }
    }
}

// How many judged blocks were good and how many bad, and the remainder of the last bad one that tells one.
#[derive(Default, Drop)]
pub struct Blocks {
    pub good: u32,
    pub bad: u32,
    pub remainder: u16,
}

// What a judged window counts, as a block or as a bit passed over, and the lock after it.
#[derive(Drop)]
pub struct Judged {
    pub blocks: Blocks,
    // 0 or 1. A number, as `good` and `bad` of the blocks are: a run's counts are sums of such.
    pub passed: u8,
    pub lock: Lock,
}

impl Judged {
    fn good_block(lock: Lock) -> Judged
        ensures { result ≡ good_block lock }
    {
        let blocks = Blocks {
            good: 1,
            ..Blocks::default()
        };
        Judged {
            blocks,
            passed: 0,
            lock,
        }
    }

    fn bad_block(remainder: u16, lock: Lock) -> Judged
        ensures { result ≡ bad_block remainder lock }
    {
        let blocks = Blocks {
            good: 0,
            bad: 1,
            remainder,
        };
        Judged {
            blocks,
            passed: 0,
            lock,
        }
    }

    fn passed_over(lock: Lock) -> Judged
        ensures { result ≡ passed_over lock }
    {
        let blocks = Blocks::default();
        Judged {
            blocks,
            passed: 1,
            lock,
        }
    }
}

// Hunting, with no time.
pub fn fresh_lock() -> Lock
    ensures { result ≡ fresh_lock }
{
    Lock::default()
}

#[tactic(auto, unfolding(crate::specs::Modes::hunted))]
fn hunt(read: Result<Body, Refused>) -> Judged
    ensures { result ≡ hunted read }
{
    match read {
        Ok(_) => Judged::good_block(Lock::trying(1)),
        Err(_) => Judged::passed_over(fresh_lock()),
    }
}

#[tactic(auto, using(std::proofs::lemmas::Bool::Decides::nat_tests), unfolding(crate::specs::Modes::tried))]
fn try_on(good: u8, read: Result<Body, Refused>) -> Judged
    ensures { result ≡ tried good read }
{
    match read {
        Ok(_) if good < 2 => Judged::good_block(Lock::trying(good + 1)),
        Ok(_) => Judged::good_block(Lock::locked(0, no_time())),
        Err(refused) => Judged::bad_block(refused.remainder, fresh_lock()),
    }
}

#[tactic(auto, using(std::proofs::lemmas::Bool::Decides::nat_tests), unfolding(crate::specs::Modes::held_on))]
fn hold_on(edition: Edition, bad: u8, time: Time, read: Result<Body, Refused>) -> Judged
    ensures { result ≡ held_on edition bad time read }
{
    let next = timekeeping::offered_to(edition, time, read);
    match read {
        Ok(_) => Judged::good_block(Lock::locked(0, next)),
        Err(refused) => {
            let left = if bad < 3 {
                Lock::locked(bad + 1, next)
            } else {
                fresh_lock()
            };
            Judged::bad_block(refused.remainder, left)
        }
    }
}

// A judged window, by the mode.
#[tactic(auto, using(std::proofs::lemmas::Bool::Decides::nat_tests), unfolding(crate::specs::Modes::judged_by))]
pub fn judge(edition: Edition, lock: Lock, read: Result<Body, Refused>) -> Judged
    ensures { result ≡ judged_by edition lock read }
{
    match lock.mode {
        Lock::HUNTING => hunt(read),
        Lock::TRYING => try_on(lock.good, read),
        _ => hold_on(edition, lock.bad, lock.time, read),
    }
}

// ---- proper

#[tactic(auto, using(std::proofs::lemmas::Bool::Decides::nat_tests), unfolding(crate::specs::Locks::lock_proper))]
pub fn is_proper(edition: Edition, lock: Lock) -> bool
    ensures { result ≡ lock_proper edition lock }
{
    let bad = lock.bad;
    match lock.mode {
        Lock::HUNTING => lock.good == 0 && bad == 0 && is_no_time(lock.time),
        Lock::TRYING => 1 <= lock.good && lock.good <= 2 && bad == 0 && is_no_time(lock.time),
        Lock::LOCKED => lock.good == 0 && bad <= 3 && timekeeping::is_proper(edition, lock.time),
        _ => false,
    }
}
