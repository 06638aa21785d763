// The reception report of one journal, read from standard input.
#![tactic(auto)]

ghost use Rattle.std.specs.Prelude.{◌≡◌, ◌≤◌, length, IfOk};

mod lines;

use command::asked;
use console::{Failure, is_done};
use lines::{refused, say};
use reception::Report;
use record::Edition;
use std::io::{ErrorKind, Read};

// Reads until the input ends, or the memory is full. A read that a signal interrupted is taken up again.
fn take_all<'a>(input: &mut impl Read, memory: &'a mut [u8]) -> Result<&'a [u8], Failure>
    ensures { IfOk result (λ taken. length taken.now ≤ length memory.old) }
{
    let mut n = 0;
    // So many turns no input has; a loop has to end.
    for _ in 0..u64::MAX {
        if n == memory.len() {
            break;
        }
        match input.read(&mut memory[n..]) {
            Ok(0) => break,
            Ok(more) => n += more,
            Err(error) if error.kind() == ErrorKind::Interrupted => {}
            Err(error) => return Err(Failure::Input(error)),
        }
    }
    Ok(&memory[..n])
}

// No default: this program alone starts a report here, and callers from C start one by zeros.
fn fresh() -> Report {
    Report {
        blocks: 0,
        good: 0,
        fillers: 0,
        codes: [0; 16],
    }
}

// The whole journal is in memory, since its trailer comes last and points back.
fn tell(
    rt: &(impl Print + Eprint),
    input: &mut impl Read,
    edition: Edition,
    memory: &mut [u8],
) -> Result<(), Failure> {
    let journal = take_all(input, memory)?;
    if 6291456 < journal.len() {
        let _ = eprintln!(rt; "report: the journal is longer than 6291456 bytes");
        return Ok(());
    }
    let mut report = fresh();
    match report.add(edition, journal) {
        Ok(()) => say(rt, &report),
        Err(why) => {
            refused(rt, why);
            Ok(())
        }
    }
}

// What is lent to the journal: most of a stack of eight megabytes. The last byte is there to see that it is too long.
// A function, so that its contract tells the length, which a check would count out otherwise.
fn memory() -> [u8; 6291457]
    ensures { 6291457 ≡ length result }
{
    [0; 6291457]
}

fn main(rt: HostRuntime) {
    let Ok(edition) = asked(&rt, "report") else {
        return;
    };
    let mut input = rt.stdin();
    let mut memory = memory();
    is_done(&rt, "report", tell(&rt, &mut input, edition, &mut memory));
}
