// The program that says why a dial is blank: characters 0 and 1 from standard input are bits, and one line says how the time stands
// after them.
#![tactic(auto)]

ghost use Rattle.std.specs.Prelude.{IfOk};
ghost use Rattle.watch.specs.Watches.{fresh_watch};
ghost use Rattle.why.specs.Told.{FedOn, Told};

mod report;

use command::asked;
use console::{Failure, is_done};
use input::read_bits;
use record::Edition;
use report::say;
use std::io::Read;
use watch::{Standing, Watch};

// Feeds piece after piece into a fresh watch, until the input ends or reading fails.
fn feed_input(input: &mut impl Read, edition: Edition) -> Result<Watch, Failure>
    ensures { IfOk result (FedOn edition fresh_watch) }
{
    let mut buffer = [0u8; 65536];
    let mut watch = watch::fresh();
    // So many turns no input has; a loop has to end.
    for _ in 0..u64::MAX {
        let piece = read_bits(input, &mut buffer)?;
        watch = watch::run(edition, watch, piece.bits).state;
        if !piece.more {
            break;
        }
    }
    Ok(watch)
}

// How the time stands after the input. A watch that was fed from a fresh one is never refused.
fn standing_after(input: &mut impl Read, edition: Edition) -> Result<Standing, Failure>
    ensures { IfOk result (Told edition) }
{
    let watch = feed_input(input, edition)?;
    Ok(watch::why(edition, watch).unwrap())
}

// After a failed read nothing is said.
fn say_why(rt: &impl Print, input: &mut impl Read, edition: Edition) -> Result<(), Failure> {
    say(rt, standing_after(input, edition)?)
}

fn main(rt: HostRuntime) {
    let Ok(edition) = asked(&rt, "why") else {
        return;
    };
    let mut input = rt.stdin();
    is_done(&rt, "why", say_why(&rt, &mut input, edition));
}
