// A receiver with what is remembered of its history, and why a dial is blank.
#![tactic(auto)]

ghost use Rattle.std.specs.Prelude.{true, ◌≡◌, ◌+◌, ◌≤◌, ◌<◌, ◌^◌, length};
ghost use Rattle.watch.specs.Standing.{standing_of, why_of};
ghost use Rattle.watch.specs.Watches.{fresh_watch, none_ahead, none_unless, watch_proper, loss_after, drop_after, displaced_after, remembered, joined, watched_from, watched_of};

use locking::Lock;
use receiver::{Counts, PackedState, Ran, Until, refused};
use record::Edition;
use refusal::Refusal;
use timekeeping::Time;

// A receiver, how many bits it was fed, and with which bits lock was last lost, time was last dropped since the present lock, and the
// block came that made the held candidate where it displaced a held record; 0 where there is none.
#[repr(C)]
#[derive(Clone, Copy)]
pub struct Watch {
    pub state: PackedState,
    pub fed: u64,
    pub lost: u64,
    pub dropped: u64,
    pub displaced: u64,
}

// How the time stands, with the bit that is to blame.
#[derive(Drop)]
pub enum Standing {
    Confirmed,
    LockLost(u64),
    NeverLocked,
    BlockMissing(u64),
    NoUsableBlock,
    NotNextMinute(u64),
    TooYoung,
}

// A fresh receiver, with nothing to remember.
pub fn fresh() -> Watch
    ensures { result ≡ fresh_watch }
{
    let state = receiver::fresh_packed();
    Watch {
        state,
        fed: 0,
        lost: 0,
        dropped: 0,
        displaced: 0,
    }
}

// A bit is remembered only where there is something to remember.
fn none_unless(something: bool, bit: u64) -> bool
    ensures { result ≡ none_unless something bit }
{
    something || bit == 0
}

impl Watch {
    // None of the remembered bits is behind those fed.
    #[tactic(auto, using(std::proofs::lemmas::Bool::Decides::nat_tests))]
    fn none_ahead(self) -> bool
        ensures { result ≡ none_ahead self.fed self.lost self.dropped self.displaced }
    {
        self.lost <= self.fed && self.dropped <= self.fed && self.displaced <= self.fed
    }

    #[tactic(auto, unfolding(crate::specs::Watches::watch_proper))]
    fn is_proper(self, edition: Edition) -> bool
        ensures { result ≡ watch_proper edition self }
    {
        let state = self.state;
        if !receiver::is_proper(edition, state) {
            return false;
        }
        if !self.none_ahead() {
            return false;
        }
        if none_unless(state.mode == Lock::LOCKED, self.dropped) {
            none_unless(state.time == Time::CANDIDATE, self.displaced)
        } else {
            false
        }
    }

    // What is remembered behind the latest bits, if only with the last of them lock or the kind of the time may have changed.
    #[tactic(auto, unfolding(crate::specs::Watches::remembered))]
    fn remember(self, after: PackedState, latest: u64) -> Watch
        requires { self.fed + latest < 2 ^ 64 }
        ensures { result ≡ remembered self after latest }
    {
        let before = self.state;
        let n = self.fed + latest;
        let since = 50 * (after.age as u64) + (after.waiting as u64);
        Watch {
            state: after,
            fed: n,
            lost: last_loss(before.mode, after.mode, n, self.lost),
            dropped: last_drop(after.mode, before.time, after.time, n, self.dropped),
            displaced: last_displacement(before.time, after.time, n, since, latest, self.displaced),
        }
    }

    // How the time stands.
    #[tactic(auto, using(std::proofs::lemmas::Bool::Decides::nat_tests), unfolding(crate::specs::Standing::standing_with))]
    fn standing(self) -> Standing
        ensures { result ≡ standing_of self }
    {
        let state = self.state;
        if state.time == Time::CONFIRMED {
            return Standing::Confirmed;
        }
        if state.mode != Lock::LOCKED {
            let lost = self.lost;
            if lost == 0 {
                return Standing::NeverLocked;
            }
            return Standing::LockLost(lost);
        }
        if state.time == Time::NONE {
            let dropped = self.dropped;
            if dropped == 0 {
                return Standing::NoUsableBlock;
            }
            return Standing::BlockMissing(dropped);
        }
        let displaced = self.displaced;
        if displaced == 0 {
            return Standing::TooYoung;
        }
        Standing::NotNextMinute(displaced)
    }
}

// ---- what is remembered when n bits were fed, if of the latest of them only the last may have changed lock or the kind of the time

// By the modes before and after.
#[tactic(auto, using(std::proofs::lemmas::Bool::Decides::nat_tests))]
fn last_loss(before: u8, after: u8, n: u64, lost: u64) -> u64
    ensures { result ≡ loss_after before after n lost }
{
    if before == Lock::LOCKED && after != Lock::LOCKED {
        n
    } else {
        lost
    }
}

// By the mode after, and the kinds of time before and after. What was dropped under an earlier lock is forgotten.
#[tactic(auto, using(std::proofs::lemmas::Bool::Decides::nat_tests))]
fn last_drop(mode: u8, before: u8, after: u8, n: u64, dropped: u64) -> u64
    ensures { result ≡ drop_after mode before after n dropped }
{
    if mode != Lock::LOCKED {
        0
    } else if before != Time::NONE && after == Time::NONE {
        n
    } else {
        dropped
    }
}

// By the kinds of time before and after, and how many bits ago the block of the held record ended.
#[tactic(auto, using(std::proofs::lemmas::Bool::Decides::nat_tests))]
fn last_displacement(before: u8, after: u8, n: u64, since: u64, latest: u64, displaced: u64) -> u64
    requires { latest ≤ n }
    ensures { result ≡ displaced_after before after n since latest displaced }
{
    if after != Time::CANDIDATE {
        return 0;
    }
    if latest <= since {
        return displaced;
    }
    if before == Time::NONE {
        return 0;
    }
    n - since
}

// ---- a run

// What one stretch counted and then the next. `receiver::more` adds blocks alone, with no refusal and no bits passed over or waiting.
fn together(before: Counts, after: Counts) -> Counts
    requires { (before.good + after.good < 2 ^ 32) × (before.bad + after.bad < 2 ^ 32) × (before.passed + after.passed < 2 ^ 32) }
    ensures { result ≡ joined before after }
{
    Counts {
        refusal: after.refusal,
        good: before.good + after.good,
        bad: before.bad + after.bad,
        passed: before.passed + after.passed,
        waiting: after.waiting,
        remainder: receiver::later(before.remainder, after.remainder),
    }
}

// The bits stretch by stretch: each ends where lock or the kind of the time changes.
fn feed_all(edition: Edition, start: Watch, bits: &[u8]) -> Ran<Watch>
    requires { (watch_proper edition start ≡ true) × (length bits.now ≤ 65536) × (start.fed + length bits.now < 2 ^ 64) }
    ensures { result ≡ watched_from edition start bits.now }
{
    let mut watch = start;
    let mut counts = Counts {
        waiting: start.state.waiting as u32,
        ..Counts::default()
    };
    let mut rest = bits;
    while !rest.is_empty() {
        let stretch = receiver::run_until(edition, watch.state, rest, Until::AnyChange);
        let ran = stretch.ran;
        let after = ran.state;
        counts = together(counts, ran.counts);
        watch = watch.remember(after, stretch.fed as u64);
        if counts.refusal != 0 {
            return Ran {
                counts,
                state: watch,
            };
        }
        rest = &rest[stretch.fed..];
    }
    Ran {
        counts,
        state: watch,
    }
}

// A run of bits into a watch, by value. It counts as a run into its receiver does.
#[tactic(auto, using(std::proofs::lemmas::Bool::Decides::nat_tests), unfolding(crate::specs::Watches::watched_of))]
pub fn run(edition: Edition, watch: Watch, bits: &[u8]) -> Ran<Watch>
    ensures { result ≡ watched_of edition watch bits.now }
{
    if 65536 < bits.len() {
        return refused(Refusal::RunTooLong, watch);
    }
    if u64::MAX - watch.fed < bits.len() as u64 {
        return refused(Refusal::RunTooLong, watch);
    }
    if watch.is_proper(edition) {
        feed_all(edition, watch, bits)
    } else {
        refused(Refusal::Improper, watch)
    }
}

// Why a dial is blank: how the time of a watch stands.
#[tactic(auto, unfolding(crate::specs::Standing::why_of))]
pub fn why(edition: Edition, watch: Watch) -> Result<Standing, Refusal>
    ensures { result ≡ why_of edition watch }
{
    if watch.is_proper(edition) {
        Ok(watch.standing())
    } else {
        Err(Refusal::Improper)
    }
}
