// Entries in a journal's bytes: read, judged and moved.
ghost use Rattle.std.specs.Prelude.{◌++◌, ◌≡◌, ◌+◌, ◌*◌, ◌≤◌, length, take, drop};
ghost use Rattle.journal.specs.Entries.{entry_of, entries_of, pair_bytes, bytes_of};
ghost use Rattle.journal.specs.Order.{least_after, verdict_on, checked_of};
ghost use Rattle.journal.specs.Salvage.{whole_entries};

use crate::{Checked, Entry, Wanted};
use big_endian::{number_of, store};
use refusal::Refusal;

impl Entry {
    // The entry at the front of some bytes.
    fn read(bytes: &[u8]) -> Entry
        requires { 16 ≤ length bytes.now }
        ensures { result ≡ entry_of bytes.now }
    {
        Entry {
            bit: number_of(&bytes[..8]),
            block: number_of(&bytes[8..16]),
        }
    }

    // Whether it may come behind an entry with the bit number `last`: the order comes before the block's number.
    fn judge(&self, last: Option<u64>) -> Result<(), Refusal>
        ensures { result ≡ verdict_on (least_after last) self.now }
    {
        if let Some(last) = last {
            if self.bit <= last {
                return Err(Refusal::NotRising);
            }
        }
        if 0x3_FFFF_FFFF_FFFF < self.block {
            return Err(Refusal::NumberTooWide);
        }
        Ok(())
    }
}

// Judges the whole entries in some bytes one after the other, up to the first fault.
pub fn check_entries(bytes: &[u8]) -> Checked
    ensures { result ≡ checked_of (whole_entries bytes.now) }
{
    let (chunks, _) = bytes.as_chunks::<16>();
    let mut last = None;
    for (seen, chunk) in chunks.iter().enumerate() {
        let entry = Entry::read(chunk);
        if let Err(why) = entry.judge(last) {
            return Checked {
                sound: seen,
                verdict: Err(why),
            };
        }
        last = Some(entry.bit);
    }
    Checked {
        sound: chunks.len(),
        verdict: Ok(()),
    }
}

// Two numbers in sixteen bytes: an entry, or the trailer.
pub fn put_pair(journal: &mut [u8], at: usize, first: u64, second: u64)
    requires { at + 16 ≤ length journal.old }
    ensures { journal.new ≡ take at journal.old ++ (pair_bytes first second ++ drop (at + 16) journal.old) }
{
    let middle = at + 8;
    let end = middle + 8;
    store(&mut journal[at..middle], first);
    store(&mut journal[middle..end], second);
}

// Entries one after the other to the front. None is written over before it is read.
pub fn move_to_front(journal: &mut [u8], wanted: Wanted)
    requires { wanted.first + 16 * wanted.count ≤ length journal.old }
    ensures { journal.new ≡ bytes_of (entries_of wanted.count (drop wanted.first journal.old)) ++ drop (16 * wanted.count) journal.old }
{
    for place in 0..wanted.count {
        let to = 16 * place;
        let entry = Entry::read(&journal[wanted.first + to..]);
        put_pair(journal, to, entry.bit, entry.block);
    }
}
