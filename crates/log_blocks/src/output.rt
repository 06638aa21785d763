// The entries and the trailer, sixteen bytes each, as they are written.
ghost use Rattle.std.specs.Prelude.{◌≡◌};
ghost use Rattle.journal.specs.Entries.{pair_bytes};

use big_endian::store;
use console::{Failure, put};

// The bytes of a pair. `journal` has no call for it: there the pair is written in place, into a journal that is lent.
fn pair_of(first: u64, second: u64) -> [u8; 16]
    ensures { result ≡ pair_bytes first second }
{
    let mut bytes = [0u8; 16];
    store(&mut bytes[..8], first);
    store(&mut bytes[8..], second);
    bytes
}

// Two numbers on standard output.
pub fn put_pair(rt: &impl Print, first: u64, second: u64) -> Result<(), Failure> {
    put(rt, &pair_of(first, second))
}
