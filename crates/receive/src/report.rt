// The lines that are printed.
use crate::totals::{Kept, Said};
use console::{Failure, put_line, put_number};

// The line about lock, if there is something to say.
pub fn say(rt: &impl Print, said: Option<Said>) -> Result<(), Failure> {
    match said {
        Some(Said::Came(n)) => put_line(rt, "LOCK ", n),
        Some(Said::Went(n)) => put_line(rt, "LOST ", n),
        None => Ok(()),
    }
}

pub fn say_end(rt: &impl Print, kept: Kept) -> Result<(), Failure> {
    let state = kept.state;
    put_number(rt, "END ", kept.fed)?;
    put_number(rt, " ", kept.good)?;
    put_number(rt, " ", kept.bad)?;
    put_number(rt, " ", kept.passed)?;
    put_line(rt, " ", u64::from(state.waiting))
}
