// A pair of readings: its signs, and the bit that it says.
ghost use Rattle.std.specs.Prelude.{cond, ◌≡◌, eqb};
ghost use Rattle.std.specs.Float.Ieee.{lt};
ghost use Rattle.halves.specs.Decision.{magnitude, doubtful, decision_of, one, zero, bit_of};
ghost use Rattle.halves.specs.Pairs.{pair_of, opposite, count_opposite};

use crate::{Pair, Polarity};

// Readings that follow each other.
impl From<[f32; 2]> for Pair {
    ghost from_gives = { λ readings pair. pair ≡ pair_of readings };

    fn from(readings: [f32; 2]) -> Pair {
        Pair {
            first: readings[0],
            second: readings[1],
        }
    }
}

impl Pair {
    // Zero has no sign.
    fn is_opposite(self) -> bool
        ensures { result ≡ opposite self }
    {
        let falls = (0.0 < self.first) & (self.second < 0.0);
        let rises = (self.first < 0.0) & (0.0 < self.second);
        falls | rises
    }

    fn is_doubtful(self, margin: f32) -> bool
        ensures { result ≡ doubtful margin self }
    {
        (self.first == self.second) | within(self.first - self.second, margin)
    }

    // A doubtful bit goes on as 0 under either polarity.
    pub(crate) fn bit(self, margin: f32, polarity: Polarity) -> u8
        ensures { result ≡ bit_of polarity (decision_of margin self) }
    {
        let doubtful = self.is_doubtful(margin);
        let one = says_one(self.second < self.first, polarity);
        if one & !doubtful { 1 } else { 0 }
    }
}

// How many of the pairs that start with the first reading have opposite signs. Added up, since a `filter` asks a question of each pair that no
// processor guesses: short readings then take several times as long.
pub fn count_opposite(readings: &[f32]) -> usize
    ensures { result ≡ count_opposite readings.now }
{
    let (pairs, _) = readings.as_chunks::<2>();
    pairs
        .iter()
        .map(|pair| usize::from(Pair::from(*pair).is_opposite()))
        .sum()
}

// Whether a difference is less than the margin, whichever its sign.
fn within(difference: f32, margin: f32) -> bool
    ensures { result ≡ lt (magnitude difference) margin }
{
    (-margin < difference) & (difference < margin)
}

// Whether a bit that is not doubtful is 1.
fn says_one(greater: bool, polarity: Polarity) -> bool
    ensures { result ≡ eqb (bit_of polarity (cond greater one zero)) 1 }
{
    match polarity {
        Polarity::AsItStands => greater,
        Polarity::Exchanged => !greater,
    }
}
