// The reception report: totals over many journals, added up journal by journal or report by report (document 02, No. 12).
#![tactic(auto)]

mod tally;
#[cfg(test)]
mod tests;

ghost use Rattle.std.specs.Prelude.{true, ◌≡◌, ◌≤◌, ◌^◌, eqb};
ghost use Rattle.reception.specs.Adding.{add_of, answered, join_of, left_by};
ghost use Rattle.reception.specs.Reports.{adds, is_proper, plus, total};
ghost use Rattle.reception.specs.Share.{share_of};

use journal::find_wanted;
use record::Edition;
use refusal::Refusal;

// Exact totals; all zeros before any journal.
#[repr(C)]
#[derive(Clone, Copy)]
pub struct Report {
    pub blocks: u64,
    pub good: u64,
    // Of the good ones, those that carry nothing; they are among the ones of code 0.
    pub fillers: u64,
    // The good ones of each code.
    pub codes: [u64; 16],
}

// Good blocks of a thousand: what the division gives, and what it leaves.
#[derive(Clone, Copy)]
pub struct Share {
    pub quotient: u64,
    pub remainder: u64,
}

// The codes add up to the good blocks. Nothing is added, so that no sum can start anew at 2^64.
fn add_up(codes: &[u64; 16], good: u64) -> bool
    ensures { result ≡ eqb (total codes.now) good }
{
    let mut left = good;
    for &code in codes {
        if left < code {
            return false;
        }
        left -= code;
    }
    left == 0
}

// Code by code.
fn sum_of_codes(one: &[u64; 16], other: &[u64; 16]) -> [u64; 16]
    requires { (total one.now ≤ 2 ^ 32) × (total other.now ≤ 2 ^ 32) }
    ensures { result ≡ adds one.now other.now }
{
    let mut sums = *one;
    for (code, more) in other.iter().enumerate() {
        sums[code] += *more;
    }
    sums
}

impl Report {
    // At most 2^32 blocks, and no part larger than the whole.
    pub fn is_proper(&self) -> bool
        ensures { result ≡ is_proper self.now }
    {
        if 0x1_0000_0000 < self.blocks {
            return false;
        }
        if self.blocks < self.good {
            return false;
        }
        if self.codes[0] < self.fillers {
            return false;
        }
        add_up(&self.codes, self.good)
    }

    // Field by field.
    fn plus(&self, other: &Report) -> Report
        requires { (is_proper self.now ≡ true) × (is_proper other.now ≡ true) }
        ensures { result ≡ plus self.now other.now }
    {
        Report {
            blocks: self.blocks + other.blocks,
            good: self.good + other.good,
            fillers: self.fillers + other.fillers,
            codes: sum_of_codes(&self.codes, &other.codes),
        }
    }

    // The totals of another report come to it. A refusal leaves it as it was.
    pub fn join(&mut self, other: &Report) -> Result<(), Refusal>
        ensures told { result ≡ answered (join_of self.old other.now) }
        ensures left { self.new ≡ left_by self.old (join_of self.old other.now) }
    {
        if !self.is_proper() {
            return Err(Refusal::Improper);
        }
        if !other.is_proper() {
            return Err(Refusal::Improper);
        }
        if 0x1_0000_0000 - self.blocks < other.blocks {
            return Err(Refusal::TooManyBlocks);
        }
        *self = self.plus(other);
        Ok(())
    }

    // A journal's wanted entries come to it. A refusal leaves it as it was.
    pub fn add(&mut self, edition: Edition, journal: &[u8]) -> Result<(), Refusal>
        ensures told { result ≡ answered (add_of edition self.old journal.now) }
        ensures left { self.new ≡ left_by self.old (add_of edition self.old journal.now) }
    {
        if !self.is_proper() {
            return Err(Refusal::Improper);
        }
        let wanted = find_wanted(journal)?;
        if 0x1_0000_0000 - self.blocks < wanted.count as u64 {
            return Err(Refusal::TooManyBlocks);
        }
        let end = wanted.first + 16 * wanted.count;
        self.count_entries(edition, &journal[wanted.first..end]);
        Ok(())
    }

    // How many blocks of a thousand were good.
    pub fn per_thousand(&self) -> Result<Share, Refusal>
        ensures { result ≡ share_of self.now }
    {
        if self.is_proper() {
            if self.blocks == 0 {
                return Ok(Share {
                    quotient: 0,
                    remainder: 0,
                });
            }
            let thousands = 1000 * self.good;
            return Ok(Share {
                quotient: thousands / self.blocks,
                remainder: thousands % self.blocks,
            });
        }
        Err(Refusal::Improper)
    }
}
