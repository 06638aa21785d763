// The wrong symbols of a word, at most three, from what its check symbols miss.
#![tactic(auto)]

mod mending;
mod search;

ghost use Rattle.big_endian.specs.Digits.{digits};
ghost use Rattle.wrong_symbols.specs.Explained.{Explains};

use mending::mistakes;
use power_sums::sums;
use search::find_places;

// The wrong symbols of a word of fifteen that have the power sums of six symbols which are missed, in one number: none where they are more than three.
pub fn explain(missed: u32) -> Option<u64>
    ensures { Explains (digits 4 6 missed) result }
{
    let s = sums(missed);
    let places = find_places(s)?;
    Some(mistakes(s, places))
}
