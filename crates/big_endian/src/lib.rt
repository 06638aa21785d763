// Numbers in bytes, the first highest: read and written.
#![tactic(auto)]

ghost use Rattle.std.specs.Prelude.{◌≡◌, length};
ghost use Rattle.big_endian.specs.Bytes.{Told, kept_behind, number_at};
ghost use Rattle.big_endian.specs.Digits.{digits};

// One byte more behind those that a number was read from; of more than eight, the last eight count.
fn behind(number: u64, byte: u8) -> u64
    ensures { result ≡ kept_behind number byte }
{
    number % 0x100_0000_0000_0000 * 256 + byte as u64
}

// The number that bytes write; of more than eight, the last eight count.
pub fn number_of(bytes: &[u8]) -> u64
    ensures { Told bytes.now result }
{
    // Eight bytes are read as one word.
    if let Some(eight) = bytes.as_array::<8>() {
        return u64::from_be_bytes(*eight);
    }
    let mut total = 0;
    for &byte in bytes {
        total = behind(total, byte);
    }
    total
}

// The lowest bytes of a number, as many as there are places. Block has the same for bits: one function for both would be public and
// ask of its base that a digit fits a byte, and no public function asks anything.
pub fn store(out: &mut [u8], number: u64)
    ensures { out.new ≡ digits 8 (length out.old) number }
{
    // Eight bytes are written as one word.
    if out.len() == 8 {
        out.copy_from_slice(&number.to_be_bytes());
        return;
    }
    let mut left = number;
    for k in (0..out.len()).rev() {
        out[k] = (left % 256) as u8;
        left /= 256;
    }
}

// The number in the eight bytes from a place on, 0 where there are no eight.
pub fn number_at(bytes: &[u8], at: usize) -> u64
    ensures { result ≡ number_at bytes.now at }
{
    let Some(rest) = bytes.get(at..) else {
        return 0;
    };
    let Some(eight) = rest.first_chunk::<8>() else {
        return 0;
    };
    u64::from_be_bytes(*eight)
}
