// Strings of bits in memory.
ghost use Rattle.std.specs.Prelude.{◌≡◌, length};
ghost use Rattle.block.specs.Bits.{bits_of};

// The lowest bits of a number, as many as there are places, most significant first. Big_endian has the same for bytes: one function for
// both would be public and ask that a digit fits a byte, and no public function asks anything. Of what `iter_mut` wrote no proof learns.
pub fn store(out: &mut [u8], number: u64)
    ensures { out.new ≡ bits_of (length out.old) number }
{
    let mut left = number;
    for k in (0..out.len()).rev() {
        out[k] = (left % 2) as u8;
        left = left / 2;
    }
}
