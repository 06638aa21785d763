// The lines that are printed.
use console::{Failure, put_line, put_number};
use reception::Report;
use refusal::Refusal;

// What stands before each four codes.
const FOURS: [&str; 4] = [
    "codes 0 to 3: ",
    "codes 4 to 7: ",
    "codes 8 to 11: ",
    "codes 12 to 15: ",
];

// Four codes in a line.
fn four(rt: &impl Print, text: &str, codes: &[u64; 4]) -> Result<(), Failure> {
    put_number(rt, text, codes[0])?;
    put_number(rt, " ", codes[1])?;
    put_number(rt, " ", codes[2])?;
    put_line(rt, " ", codes[3])
}

// Eight lines. A report that was counted is proper, so its share of good blocks is never refused.
pub fn say(rt: &impl Print, report: &Report) -> Result<(), Failure> {
    put_line(rt, "blocks: ", report.blocks)?;
    put_line(rt, "good: ", report.good)?;
    let Ok(share) = report.per_thousand() else {
        return Ok(());
    };
    put_number(rt, "good per thousand: ", share.quotient)?;
    put_line(rt, ", remainder ", share.remainder)?;
    put_line(rt, "fillers: ", report.fillers)?;
    let (fours, _) = report.codes.as_chunks::<4>();
    for (text, codes) in FOURS.iter().zip(fours) {
        four(rt, text, codes)?;
    }
    Ok(())
}

// No Display: these words are this program's, and the library tells a refusal by its number alone.
fn reason(why: Refusal) -> &'static str {
    match why {
        Refusal::WrongTrailer => "the trailer does not fit",
        Refusal::NotRising => "the bit number of a wanted entry is not above the one before",
        Refusal::NumberTooWide => "the block of a wanted entry has a bit above place 49",
        _ => "more than 2^32 blocks",
    }
}

// Why a journal has no report: the number and the reason. Where standard error takes nothing there is nowhere else to tell it.
pub fn refused(rt: &impl Eprint, why: Refusal) {
    let number = u8::from(why);
    let reason = reason(why);
    let _ = eprintln!(rt; "report: refused with {number}: {reason}");
}
