// The block's calls as C sees them: flat answers, numbered as document 01 numbers things. The version, which belongs to no floor,
// stands here on the lowest.
#![tactic(auto)]

ghost use Rattle.std.specs.Prelude.{◌≡◌, length};
ghost use Rattle.block.specs.Choose.{choice_of, chosen, number_told, remainder_told};
ghost use Rattle.block.specs.Packed.{read_packed, write_packed, choose_packed, pack_of, unpack_of, unpacked_of};
ghost use Rattle.block.specs.Read.{read_of};
ghost use Rattle.block.specs.Write.{write_of, written_of, refusal_of};
ghost use Rattle.face_block.specs.Face.{block_face, packed_face, version_of};

use block::{Aerial, Body, Refused};
use refusal::Refusal;

// What reading a block answers: the refusal's number, 0 for none, then code and word, zeros where refused, and the remainder, zero
// unless refused with 4.
#[repr(C)]
#[derive(Clone, Copy)]
pub struct BlockAnswer {
    pub refusal: u8,
    pub code: u8,
    pub word: u32,
    pub remainder: u16,
}

// A block as one number: the refusal's number, 0 for none, then the block, zero where refused.
#[repr(C)]
#[derive(Clone, Copy)]
pub struct PackedAnswer {
    pub refusal: u8,
    pub block: u64,
}

// ---- each kind of answer as C is told it

impl From<Result<Body, Refused>> for BlockAnswer {
    ghost from_gives = { λ read answer. answer ≡ block_face read };

    fn from(read: Result<Body, Refused>) -> BlockAnswer {
        match read {
            Ok(body) => BlockAnswer {
                refusal: 0,
                code: body.code,
                word: body.word,
                remainder: 0,
            },
            Err(refused) => BlockAnswer {
                refusal: u8::from(refused.refusal),
                code: 0,
                word: 0,
                remainder: refused.remainder,
            },
        }
    }
}

impl From<Result<u64, Refusal>> for PackedAnswer {
    ghost from_gives = { λ packed answer. answer ≡ packed_face packed };

    fn from(packed: Result<u64, Refusal>) -> PackedAnswer {
        match packed {
            Ok(block) => PackedAnswer { refusal: 0, block },
            Err(refusal) => PackedAnswer {
                refusal: u8::from(refusal),
                block: 0,
            },
        }
    }
}

// The refusal's number, 0 where all is written.
// One `match` each in three faces: a shared one would be public in refusal, under one more definition.
fn outcome(written: Result<(), Refusal>) -> u8
    ensures { result ≡ refusal_of written }
{
    match written {
        Ok(()) => 0,
        Err(refusal) => u8::from(refusal),
    }
}

// 1 for the first, 2 for the second, 0 for neither: C is told which, since a slice cannot be handed to it.
fn tell(choice: Result<Aerial, Refused>, number: &mut u8, remainder: &mut u16) -> u8
    ensures choice { result ≡ chosen choice 1 2 0 }
    ensures number { number.new ≡ number_told choice }
    ensures remainder { remainder.new ≡ remainder_told choice }
{
    match choice {
        Ok(aerial) => {
            *number = 0;
            *remainder = 0;
            match aerial {
                Aerial::First => 1,
                Aerial::Second => 2,
            }
        }
        Err(refused) => {
            *number = u8::from(refused.refusal);
            *remainder = refused.remainder;
            0
        }
    }
}

// ---- the block in memory

#[unsafe(no_mangle)]
pub extern "C" fn lw_read_block(bits: &[u8]) -> BlockAnswer
    ensures { result ≡ block_face (read_of bits.now) }
{
    BlockAnswer::from(block::read_block(bits))
}

#[unsafe(no_mangle)]
pub extern "C" fn lw_write_block(code: u8, word: u32, bits: &mut [u8]) -> u8
    ensures { (result ≡ refusal_of (write_of (length bits.old) code)) × (bits.new ≡ written_of bits.old code word) }
{
    outcome(block::write_block(code, word, bits))
}

#[unsafe(no_mangle)]
pub extern "C" fn lw_choose(first: &[u8], second: &[u8], number: &mut u8, remainder: &mut u16) -> u8
    ensures choice { result ≡ chosen (choice_of first.now second.now) 1 2 0 }
    ensures number { number.new ≡ number_told (choice_of first.now second.now) }
    ensures remainder { remainder.new ≡ remainder_told (choice_of first.now second.now) }
{
    tell(block::choose_between(first, second), number, remainder)
}

// ---- the block as one number

#[unsafe(no_mangle)]
pub extern "C" fn lw_read_packed(block: u64) -> BlockAnswer
    ensures { result ≡ block_face (read_packed block) }
{
    BlockAnswer::from(block::read_packed(block))
}

#[unsafe(no_mangle)]
pub extern "C" fn lw_write_packed(code: u8, word: u32) -> PackedAnswer
    ensures { result ≡ packed_face (write_packed code word) }
{
    PackedAnswer::from(block::write_packed(code, word))
}

#[unsafe(no_mangle)]
pub extern "C" fn lw_choose_packed(
    first: u64,
    second: u64,
    number: &mut u8,
    remainder: &mut u16,
) -> u8
    ensures choice { result ≡ chosen (choose_packed first second) 1 2 0 }
    ensures number { number.new ≡ number_told (choose_packed first second) }
    ensures remainder { remainder.new ≡ remainder_told (choose_packed first second) }
{
    tell(block::choose_packed(first, second), number, remainder)
}

#[unsafe(no_mangle)]
pub extern "C" fn lw_pack(bits: &[u8]) -> PackedAnswer
    ensures { result ≡ packed_face (pack_of bits.now) }
{
    PackedAnswer::from(block::pack(bits))
}

#[unsafe(no_mangle)]
pub extern "C" fn lw_unpack(block: u64, bits: &mut [u8]) -> u8
    ensures { (result ≡ refusal_of (unpack_of (length bits.old) block)) × (bits.new ≡ unpacked_of bits.old block) }
{
    outcome(block::unpack(block, bits))
}

// The library's version.
#[unsafe(no_mangle)]
pub extern "C" fn lw_version() -> u32
    ensures { result ≡ version_of 4 0 0 }
{
    40_000
}
