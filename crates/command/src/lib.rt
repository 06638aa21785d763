// The argument of a program that takes an edition and nothing else: [EDITION].
#![tactic(auto)]

ghost use Rattle.command.specs.Asked.{Asked};

use arguments::edition_of;
use console::{argument, argument_count};
use record::Edition;
use refusal::Refusal;
use std::env::Env;

// An argument of more than four characters is read as empty, so that a year is written in one way only.
fn edition_in(rt: &impl Env, i: usize) -> Result<Edition, Refusal>
    ensures { Asked result }
{
    let mut text = [0u8; 4];
    edition_of(argument(rt, i, &mut text))
}

// Where standard error takes nothing there is nowhere else to tell it. No type for the two reasons: each is told at one place, behind the
// name of the program.
fn too_many(rt: &impl Eprint, program: &str) {
    let _ = eprintln!(rt;
        "{program}: refused with 6: expected [EDITION] alone, as in: {program} 1982"
    );
}

fn no_edition(rt: &impl Eprint, program: &str) {
    let _ = eprintln!(rt; "{program}: EDITION: refused with 6: expected 1984 or 1982");
}

// The edition that a program is asked for, that of 1984 where none is named. That there is none is told behind the program's name.
pub fn asked(rt: &(impl Env + Eprint), program: &str) -> Result<Edition, Refusal>
    ensures { Asked result }
{
    let count = argument_count(rt);
    if count < 2 {
        return Ok(Edition::Of1984);
    }
    if 2 < count {
        too_many(rt, program);
        return Err(Refusal::OutOfRange);
    }
    let named = edition_in(rt, 1);
    if named.is_err() {
        no_edition(rt, program);
    }
    named
}
