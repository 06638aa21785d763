// The month's journal: entries of sixteen bytes, and a trailer that points back to those that are still wanted (document 02, No. 12).
#![tactic(auto)]

mod entries;

ghost use Rattle.std.specs.Prelude.{◌≡◌, ◌+◌, ◌*◌, ◌≤◌, length};
ghost use Rattle.journal.specs.Compaction.{compact_of, compacted_of, journal_of};
ghost use Rattle.journal.specs.Salvage.{salvaged_of};
ghost use Rattle.journal.specs.Trailer.{entries_there, pointed_of, wanted_of};

use big_endian::number_at;
use entries::{check_entries, move_to_front, put_pair};
use refusal::Refusal;

// A received block: the number of its last bit, and the block as one number.
#[derive(Clone, Copy)]
pub struct Entry {
    pub bit: u64,
    pub block: u64,
}

// How many entries are sound before the first fault, and whether all of them are: in rising order, with numbers of fifty bits.
#[derive(Clone, Copy)]
pub struct Checked {
    pub sound: usize,
    pub verdict: Result<(), Refusal>,
}

// The entries that are wanted: the offset of the first in bytes, and how many they are.
#[derive(Clone, Copy)]
pub struct Wanted {
    pub first: usize,
    pub count: usize,
}

// The bytes of a journal without a trailer that can be used, and those behind them.
#[repr(C)]
#[derive(Clone, Copy)]
pub struct Salvaged {
    pub kept: u64,
    pub rest: u64,
}

// What the trailer points at. Offset and number may be anything, so neither is added or multiplied before it is bounded.
fn pointed_at(journal: &[u8]) -> Result<Wanted, Refusal>
    ensures { result ≡ pointed_of journal.now }
{
    if journal.len() == 0 {
        return Err(Refusal::WrongTrailer);
    }
    if journal.len() % 16 != 0 {
        return Err(Refusal::WrongTrailer);
    }
    let end = journal.len() - 16;
    let offset = number_at(journal, end);
    let count = number_at(journal, end + 8);
    if offset % 16 != 0 {
        return Err(Refusal::WrongTrailer);
    }
    if (end as u64) < offset {
        return Err(Refusal::WrongTrailer);
    }
    if (end as u64 - offset) / 16 < count {
        return Err(Refusal::WrongTrailer);
    }
    Ok(Wanted {
        first: offset as usize,
        count: count as usize,
    })
}

// The entries that a journal's trailer points at, if they are sound.
pub fn find_wanted(journal: &[u8]) -> Result<Wanted, Refusal>
    ensures { result ≡ wanted_of journal.now }
{
    let wanted = pointed_at(journal)?;
    let end = wanted.first + 16 * wanted.count;
    check_entries(&journal[wanted.first..end]).verdict?;
    Ok(wanted)
}

// The wanted entries at the front, the trailer behind them, and zeros.
fn settle(journal: &mut [u8], wanted: Wanted)
    requires { wanted.first + 16 * wanted.count + 16 ≤ length journal.old }
    ensures { journal.new ≡ journal_of (entries_there journal.old wanted) (length journal.old) }
{
    move_to_front(journal, wanted);
    let end = wanted.count * 16;
    put_pair(journal, end, 0, wanted.count as u64);
    journal[end + 16..].fill(0);
}

// Compacts a journal where it stands; the answer is how long it is then, its trailer included.
pub fn compact(journal: &mut [u8]) -> Result<u64, Refusal>
    ensures told { result ≡ compact_of journal.old }
    ensures left { journal.new ≡ compacted_of journal.old }
{
    let wanted = find_wanted(journal)?;
    settle(journal, wanted);
    Ok(wanted.count as u64 * 16 + 16)
}

// What can be used of a journal without a trailer.
pub fn salvage(journal: &[u8]) -> Salvaged
    ensures { result ≡ salvaged_of journal.now }
{
    let kept = check_entries(journal).sound * 16;
    Salvaged {
        kept: kept as u64,
        rest: (journal.len() - kept) as u64,
    }
}
