// The logger: characters 0 and 1 from standard input are bits, and the journal of the blocks that a receiver used up, good and bad,
// goes to standard output.
#![tactic(auto)]

ghost use Rattle.std.specs.Prelude.{◌≡◌, IfOk};
ghost use Rattle.log_blocks.specs.Log.{fresh_kept, kept_after, FedOn};

mod log;
mod output;

use console::{Failure, is_done};
use input::read_bits;
use log::{Kept, hear};
use output::put_pair;
use std::io::Read;

// No default: the fresh state is a definition of receiver.
fn fresh() -> Kept
    ensures { result ≡ fresh_kept }
{
    Kept {
        fed: 0,
        blocks: 0,
        state: receiver::fresh_packed(),
    }
}

// What is kept after a piece, and whether every entry of it was written. A struct and no Result: what was read is fed all the same.
#[derive(Drop)]
struct Logged {
    kept: Kept,
    written: Result<(), Failure>,
}

// Feeds all the bits of a piece and writes an entry for each block that they use up. After one that could not be written nothing
// more is written.
fn log_all(rt: &impl Print, start: Kept, bits: &[u8]) -> Logged
    ensures { result.kept ≡ kept_after start bits.now }
{
    let mut kept = start;
    let mut written = Ok(());
    for bit in bits {
        let heard = hear(kept, *bit);
        kept = heard.kept;
        if let Some(block) = heard.block {
            if written.is_ok() {
                written = put_pair(rt, kept.fed, block);
            }
        }
    }
    Logged { kept, written }
}

// Logs piece after piece, until the input ends, or reading or writing fails.
fn log_input(rt: &impl Print, input: &mut impl Read) -> Result<Kept, Failure>
    ensures { IfOk result (FedOn fresh_kept) }
{
    let mut buffer = [0u8; 65536];
    let mut kept = fresh();
    // So many turns no input has; a loop has to end.
    for _ in 0..u64::MAX {
        let piece = read_bits(input, &mut buffer)?;
        let logged = log_all(rt, kept, piece.bits);
        kept = logged.kept;
        logged.written?;
        if !piece.more {
            break;
        }
    }
    Ok(kept)
}

// The trailer says that the journal is whole, so after a failure it is left out.
fn write_journal(rt: &impl Print, input: &mut impl Read) -> Result<(), Failure> {
    let kept = log_input(rt, input)?;
    put_pair(rt, 0, kept.blocks)
}

fn main(rt: HostRuntime) {
    let mut input = rt.stdin();
    is_done(&rt, "log_blocks", write_journal(&rt, &mut input));
}
