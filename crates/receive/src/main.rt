// The receiver program: characters 0 and 1 from standard input are bits; it says when lock comes and goes, and what it counted.
#![tactic(auto)]

ghost use Rattle.std.specs.Prelude.{◌≡◌, ◌≤◌, true, length, IfOk};
ghost use Rattle.block.specs.Bits.{Bits};
ghost use Rattle.receiver.specs.Packed.{packed_proper};
ghost use Rattle.receive.specs.Totals.{edition, kept_after, fresh_kept, FedOn};

mod report;
mod totals;

use console::{Failure, is_done};
use input::read_bits;
use report::{say, say_end};
use std::io::Read;
use totals::{Kept, hear};

// No default: the fresh state is a definition of receiver.
fn fresh() -> Kept
    ensures { result ≡ fresh_kept }
{
    Kept {
        fed: 0,
        good: 0,
        bad: 0,
        passed: 0,
        state: receiver::fresh_packed(),
    }
}

// What is kept after a piece, and whether every line about it was written. A struct and no Result: what was read is fed all the same.
#[derive(Drop)]
struct Fed {
    kept: Kept,
    told: Result<(), Failure>,
}

// Feeds all the bits of a piece and tells where lock came or went. After a line that could not be written nothing more is told.
// What is asked of the state and the bits stands in two contracts alone, this and that of `hear`.
fn feed_all(rt: &impl Print, start: Kept, bits: &[u8]) -> Fed
    requires { (packed_proper edition start.state ≡ true) × Bits bits.now × (length bits.now ≤ 65536) }
    ensures { result.kept ≡ kept_after start bits.now }
{
    let mut kept = start;
    let mut told = Ok(());
    let mut rest = bits;
    // How far a stretch goes is known behind it, so no iterator holds the bits.
    while !rest.is_empty() {
        let heard = hear(kept, rest);
        if told.is_ok() {
            told = say(rt, heard.said);
        }
        kept = heard.kept;
        let fed = heard.fed;
        rest = &rest[fed..];
    }
    Fed { kept, told }
}

// Feeds piece after piece, until the input ends, or reading or writing fails.
fn feed_input(rt: &impl Print, input: &mut impl Read) -> Result<Kept, Failure>
    ensures { IfOk result (FedOn fresh_kept) }
{
    let mut buffer = [0u8; 65536];
    let mut kept = fresh();
    // So many turns no input has; a loop has to end.
    for _ in 0..u64::MAX {
        let piece = read_bits(input, &mut buffer)?;
        let fed = feed_all(rt, kept, piece.bits);
        kept = fed.kept;
        fed.told?;
        if !piece.more {
            break;
        }
    }
    Ok(kept)
}

// The last line says that the input ended, so after a failure it is left out.
fn hear_all(rt: &impl Print, input: &mut impl Read) -> Result<(), Failure> {
    say_end(rt, feed_input(rt, input)?)
}

fn main(rt: HostRuntime) {
    let mut input = rt.stdin();
    is_done(&rt, "receive", hear_all(&rt, &mut input));
}
