// The CRC-8, a byte at a time.
ghost use Rattle.std.specs.Prelude.{◌≡◌};
ghost use Rattle.std.specs.Int.Bits.{bit_xor};
ghost use Rattle.polish.specs.Crc.{crc_shifts};
ghost use Rattle.polish.specs.Frame.{crc_of_body};

// A byte times x^8 is that byte times x^2 + x + 1; what stands above x^7 then goes the same way.
fn next_byte(register: u8, byte: u8) -> u8
    ensures { result ≡ crc_shifts 8 (bit_xor register byte) }
{
    let sum = u32::from(register ^ byte);
    let moved = sum ^ (sum * 2 ^ sum * 4);
    let over = moved / 256;
    (moved % 256 ^ (over ^ (over * 2 ^ over * 4))) as u8
}

// The CRC of the five bytes of a body.
pub fn crc(body: u64) -> u8
    ensures { result ≡ crc_of_body body }
{
    let mut register = 0;
    for byte in &body.to_be_bytes()[3..] {
        register = next_byte(register, *byte);
    }
    register
}
