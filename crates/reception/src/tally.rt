// The blocks of a journal, counted.
ghost use Rattle.std.specs.Prelude.{true, ◌≡◌, ◌&&◌, eqb, ◌+◌, ◌/◌, ◌<◌, ◌≤◌, ◌^◌, length};
ghost use Rattle.block.specs.Packed.{read_packed};
ghost use Rattle.journal.specs.Salvage.{whole_entries};
ghost use Rattle.record.specs.Editions.{is_filler};
ghost use Rattle.reception.specs.Adding.{HasRoom};
ghost use Rattle.reception.specs.Reports.{is_proper, plus};
ghost use Rattle.reception.specs.Tally.{one_block, tally_of};

use crate::Report;
use big_endian::number_of;
use block::{Body, read_packed};
use record::{Edition, is_filler};

// A good block carries nothing where it has code 0 and the edition takes its word for a filler.
fn carries_nothing(edition: Edition, body: Body) -> bool
    ensures { result ≡ eqb body.code 0 && is_filler edition body.word }
{
    body.code == 0 && is_filler(edition, body.word)
}

impl Report {
    // One block comes to it: a good one under its code too.
    fn count(&mut self, edition: Edition, block: u64)
        requires { (is_proper self.old ≡ true) × (self.old.blocks < 2 ^ 32) }
        ensures { self.new ≡ plus self.old (one_block edition (read_packed block)) }
    {
        self.blocks += 1;
        if let Ok(body) = read_packed(block) {
            let filler = u64::from(carries_nothing(edition, body));
            self.good += 1;
            self.fillers += filler;
            self.codes[body.code as usize] += 1;
        }
    }

    // The whole entries in some bytes come to it. For this crate alone, since it has a condition.
    pub(crate) fn count_entries(&mut self, edition: Edition, bytes: &[u8])
        requires { (is_proper self.old ≡ true) × (self.old.blocks + length bytes.now / 16 ≤ 2 ^ 32) }
        ensures { self.new ≡ plus self.old (tally_of edition (whole_entries bytes.now)) }
    {
        let (chunks, _) = bytes.as_chunks::<16>();
        for entry in chunks {
            self.count(edition, number_of(&entry[8..]));
        }
    }

    // The whole entries in some bytes come to it, in whatever order they stand. Where it is not proper or would have more than 2^32
    // blocks, it stays as it was.
    pub fn count_all(&mut self, edition: Edition, bytes: &[u8])
        ensures counted { HasRoom self.old bytes.now → self.new ≡ plus self.old (tally_of edition (whole_entries bytes.now)) }
        ensures left { ¬ HasRoom self.old bytes.now → self.new ≡ self.old }
    {
        if self.is_proper() && bytes.len() as u64 / 16 <= 0x1_0000_0000 - self.blocks {
            self.count_entries(edition, bytes);
        }
    }
}
