// The receiver's calls as C sees them: the edition comes first, the state is lent and changed where it stands, and its counts are
// handed back.
#![tactic(auto)]

ghost use Rattle.std.specs.Prelude.{◌≡◌, MatchResult};
ghost use Rattle.face_receiver.specs.Face.{told_face, standing_face};
ghost use Rattle.face_receiver.specs.Under.{run_under, fed_under, run_packed_under, fed_packed_under, watched_under, why_under};
ghost use Rattle.receiver.specs.Packed.{fresh_packed};
ghost use Rattle.receiver.specs.Runs.{refused_run};
ghost use Rattle.receiver.specs.States.{fresh_of};
ghost use Rattle.receiver.specs.declared.Ran.{Ran};
ghost use Rattle.record.specs.Editions.{edition_of};
ghost use Rattle.refusal.specs.Numbers.{number_of};
ghost use Rattle.watch.specs.Watches.{fresh_watch};

use receiver::{Counts, PackedState, Ran, State, refused};
use record::Edition;
use refusal::Refusal;
use watch::{Standing, Watch};

// What is called runs into what is lent, under the edition that a number names. Where it names none nothing is counted, and what is lent
// stays as it was.
fn under<S: Copy, F: FnOnce(Edition, S) -> Ran<S> + Drop>(
    edition: u16,
    lent: &mut S,
    call: F,
) -> Counts
    requires { F.IsAlwaysCallable call }
    ensures { (ran : Ran S) × (result ≡ ran.counts) × (lent.new ≡ ran.state)
        × MatchResult (edition_of edition) (λ edition. F.post call edition lent.old ran) (λ why. ran ≡ refused_run (number_of why) lent.old) }
{
    match Edition::try_from(edition) {
        Ok(edition) => {
            let ran = call(edition, *lent);
            *lent = ran.state;
            ran.counts
        }
        Err(why) => refused(why, *lent).counts,
    }
}

// Hunting, with nothing waiting and no time.
pub fn lw_fresh() -> State
    ensures { result ≡ fresh_of }
{
    receiver::fresh()
}

// One bit into the lent state, changed where it stands.
pub fn lw_feed(edition: u16, state: &mut State, bit: u8) -> Counts
    ensures { (result ≡ (fed_under edition state.old bit).counts) × (state.new ≡ (fed_under edition state.old bit).state) }
{
    let step = |edition, state| receiver::step(edition, state, bit);
    under(edition, state, step)
}

// A run of bits into the lent state.
pub fn lw_run(edition: u16, state: &mut State, bits: &[u8]) -> Counts
    ensures { (result ≡ (run_under edition state.old bits.now).counts) × (state.new ≡ (run_under edition state.old bits.now).state) }
{
    let run = |edition, state| receiver::run(edition, state, bits);
    under(edition, state, run)
}

// ---- with the waiting bits as one number

pub fn lw_fresh_packed() -> PackedState
    ensures { result ≡ fresh_packed }
{
    receiver::fresh_packed()
}

pub fn lw_feed_packed(edition: u16, state: &mut PackedState, bit: u8) -> Counts
    ensures { (result ≡ (fed_packed_under edition state.old bit).counts) × (state.new ≡ (fed_packed_under edition state.old bit).state) }
{
    let step_packed = |edition, state| receiver::step_packed(edition, state, bit);
    under(edition, state, step_packed)
}

pub fn lw_run_packed(edition: u16, state: &mut PackedState, bits: &[u8]) -> Counts
    ensures { (result ≡ (run_packed_under edition state.old bits.now).counts) × (state.new ≡ (run_packed_under edition state.old bits.now).state) }
{
    let run_packed = |edition, state| receiver::run_packed(edition, state, bits);
    under(edition, state, run_packed)
}

// ---- with what is remembered of its history, and why a dial is blank

// How the time stands, as C reads it: its kind, and the bit that is to blame, 0 where there is none; zeros where refused.
#[repr(C)]
#[derive(Clone, Copy)]
pub struct StandingAnswer {
    pub refusal: u8,
    pub kind: u8,
    pub bit: u64,
}

impl From<Standing> for StandingAnswer {
    ghost from_gives = { λ standing answer. answer ≡ told_face standing };

    fn from(standing: Standing) -> StandingAnswer {
        let (kind, bit) = match standing {
            Standing::Confirmed => (1, 0),
            Standing::LockLost(bit) => (2, bit),
            Standing::NeverLocked => (3, 0),
            Standing::BlockMissing(bit) => (4, bit),
            Standing::NoUsableBlock => (5, 0),
            Standing::NotNextMinute(bit) => (6, bit),
            Standing::TooYoung => (7, 0),
        };
        StandingAnswer {
            refusal: 0,
            kind,
            bit,
        }
    }
}

impl From<Result<Standing, Refusal>> for StandingAnswer {
    ghost from_gives = { λ answer flat. flat ≡ standing_face answer };

    fn from(answer: Result<Standing, Refusal>) -> StandingAnswer {
        match answer {
            Ok(standing) => StandingAnswer::from(standing),
            Err(why) => StandingAnswer {
                refusal: u8::from(why),
                kind: 0,
                bit: 0,
            },
        }
    }
}

pub fn lw_watch_fresh() -> Watch
    ensures { result ≡ fresh_watch }
{
    watch::fresh()
}

// A run of bits into the lent watch.
pub fn lw_watch_run(edition: u16, watch: &mut Watch, bits: &[u8]) -> Counts
    ensures { (result ≡ (watched_under edition watch.old bits.now).counts) × (watch.new ≡ (watched_under edition watch.old bits.now).state) }
{
    let run = |edition, watch| watch::run(edition, watch, bits);
    under(edition, watch, run)
}

fn why_under(edition: u16, watch: Watch) -> Result<Standing, Refusal>
    ensures { result ≡ why_under edition watch }
{
    let edition = Edition::try_from(edition)?;
    watch::why(edition, watch)
}

// Why a dial is blank: how the time of this watch stands.
pub fn lw_why(edition: u16, watch: Watch) -> StandingAnswer
    ensures { result ≡ standing_face (why_under edition watch) }
{
    StandingAnswer::from(why_under(edition, watch))
}
