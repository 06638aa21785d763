// The receiver's calls as C links them: each export is the function of that name in `face_receiver`.
#![tactic(auto)]

ghost use Rattle.std.specs.Prelude.{◌≡◌};
ghost use Rattle.face_receiver.specs.Face.{standing_face};
ghost use Rattle.face_receiver.specs.Under.{run_under, fed_under, run_packed_under, fed_packed_under, watched_under, why_under};
ghost use Rattle.receiver.specs.Packed.{fresh_packed};
ghost use Rattle.receiver.specs.States.{fresh_of};
ghost use Rattle.watch.specs.Watches.{fresh_watch};

use face_receiver::StandingAnswer;
use receiver::{Counts, PackedState, State};
use watch::Watch;

#[unsafe(no_mangle)]
pub extern "C" fn lw_fresh() -> State
    ensures { result ≡ fresh_of }
{
    face_receiver::lw_fresh()
}

#[unsafe(no_mangle)]
pub extern "C" fn lw_feed(edition: u16, state: &mut State, bit: u8) -> Counts
    ensures { (result ≡ (fed_under edition state.old bit).counts) × (state.new ≡ (fed_under edition state.old bit).state) }
{
    face_receiver::lw_feed(edition, state, bit)
}

#[unsafe(no_mangle)]
pub extern "C" fn lw_run(edition: u16, state: &mut State, bits: &[u8]) -> Counts
    ensures { (result ≡ (run_under edition state.old bits.now).counts) × (state.new ≡ (run_under edition state.old bits.now).state) }
{
    face_receiver::lw_run(edition, state, bits)
}

#[unsafe(no_mangle)]
pub extern "C" fn lw_fresh_packed() -> PackedState
    ensures { result ≡ fresh_packed }
{
    face_receiver::lw_fresh_packed()
}

#[unsafe(no_mangle)]
pub extern "C" fn lw_feed_packed(edition: u16, state: &mut PackedState, bit: u8) -> Counts
    ensures { (result ≡ (fed_packed_under edition state.old bit).counts) × (state.new ≡ (fed_packed_under edition state.old bit).state) }
{
    face_receiver::lw_feed_packed(edition, state, bit)
}

#[unsafe(no_mangle)]
pub extern "C" fn lw_run_packed(edition: u16, state: &mut PackedState, bits: &[u8]) -> Counts
    ensures { (result ≡ (run_packed_under edition state.old bits.now).counts) × (state.new ≡ (run_packed_under edition state.old bits.now).state) }
{
    face_receiver::lw_run_packed(edition, state, bits)
}

#[unsafe(no_mangle)]
pub extern "C" fn lw_watch_fresh() -> Watch
    ensures { result ≡ fresh_watch }
{
    face_receiver::lw_watch_fresh()
}

#[unsafe(no_mangle)]
pub extern "C" fn lw_watch_run(edition: u16, watch: &mut Watch, bits: &[u8]) -> Counts
    ensures { (result ≡ (watched_under edition watch.old bits.now).counts) × (watch.new ≡ (watched_under edition watch.old bits.now).state) }
{
    face_receiver::lw_watch_run(edition, watch, bits)
}

#[unsafe(no_mangle)]
pub extern "C" fn lw_why(edition: u16, watch: Watch) -> StandingAnswer
    ensures { result ≡ standing_face (why_under edition watch) }
{
    face_receiver::lw_why(edition, watch)
}
