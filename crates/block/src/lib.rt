// The block of fifty bits, as one number and in memory: reading, writing, and choosing between two aerials.
#![tactic(auto)]

pub mod circuit;
mod memory;

ghost use Rattle.std.specs.Prelude.{[], ◌≡◌, length};
ghost use Rattle.block.specs.Choose.{between, choice_of, chosen, number_told, remainder_told};
ghost use Rattle.block.specs.Packed.{read_by, read_packed, write_packed, choose_packed, pack_of, unpack_of, unpacked_of};
ghost use Rattle.block.specs.Read.{read_of};
ghost use Rattle.block.specs.Write.{write_of, written_of};

use circuit::remainder;
use memory::store;
use refusal::Refusal;

// What a good block carries.
#[derive(Clone, Copy)]
pub struct Body {
    pub code: u8,
    pub word: u32,
}

// Why a block is refused. A wrong check word tells the remainder of all fifty bits with the first inverted, any other refusal 0.
#[derive(Clone, Copy)]
pub struct Refused {
    pub refusal: Refusal,
    pub remainder: u16,
}

impl From<Refusal> for Refused {
    ghost from_gives = { λ refusal refused. refused ≡ record { refusal = refusal; remainder = 0 } };

    fn from(refusal: Refusal) -> Refused {
        Refused {
            refusal,
            remainder: 0,
        }
    }
}

impl From<Refused> for Refusal {
    ghost from_gives = { λ refused refusal. refusal ≡ refused.refusal };

    fn from(refused: Refused) -> Refusal {
        refused.refusal
    }
}

// Which of two aerials' blocks is chosen.
#[derive(Clone, Copy)]
pub enum Aerial {
    First,
    Second,
}

// ---- as one number

// The code and the word of a block's number, where the remainder of what stands behind the prefix is known. Behind a prefix 1 it is
// that of all fifty bits with the first inverted.
#[tactic(auto, using(std::proofs::lemmas::Bool::Decides::nat_tests), unfolding(crate::specs::Packed::read_by))]
pub fn read_by(block: u64, left: u16) -> Result<Body, Refused>
    ensures { result ≡ read_by block left }
{
    if block < 0x2_0000_0000_0000 {
        return Err(Refused::from(Refusal::WrongPrefix));
    }
    if left != 0 {
        return Err(Refused {
            refusal: Refusal::WrongCheckWord,
            remainder: left,
        });
    }
    let code = (block / 0x2000_0000_0000 % 16) as u8;
    let word = (block / 0x2000 % 0x1_0000_0000) as u32;
    Ok(Body { code, word })
}

// The code and the word of a block.
pub fn read_packed(block: u64) -> Result<Body, Refused>
    ensures { result ≡ read_packed block }
{
    if 0x3_FFFF_FFFF_FFFF < block {
        return Err(Refused::from(Refusal::NumberTooWide));
    }
    read_by(block, remainder(block) as u16)
}

// The block of a code and a word as one number: the first bit in place 49, and nothing above. The prefix, the code and the word stand
// first, and what they leave is added below.
pub fn write_packed(code: u8, word: u32) -> Result<u64, Refusal>
    ensures { result ≡ write_packed code word }
{
    if 15 < code {
        return Err(Refusal::OutOfRange);
    }
    let body = (code as u64) * 0x1_0000_0000 + (word as u64);
    let open = 0x2_0000_0000_0000 + body * 0x2000;
    Ok(open + (remainder(open) as u64))
}

// Where neither is good, the first is the one whose refusal is told.
fn between(one: Result<Body, Refused>, two: Result<Body, Refused>) -> Result<Aerial, Refused>
    ensures { result ≡ between one two }
{
    match (one, two) {
        (Ok(_), _) => Ok(Aerial::First),
        (_, Ok(_)) => Ok(Aerial::Second),
        (Err(refused), _) => Err(refused),
    }
}

// Which of two aerials' numbers is a good block, the first before the second.
pub fn choose_packed(first: u64, second: u64) -> Result<Aerial, Refused>
    ensures { result ≡ choose_packed first second }
{
    between(read_packed(first), read_packed(second))
}

// ---- in memory

// Any fifty bits as one number.
pub fn pack(bits: &[u8]) -> Result<u64, Refusal>
    ensures { result ≡ pack_of bits.now }
{
    if bits.len() != 50 {
        return Err(Refusal::WrongLength);
    }
    let mut number: u64 = 0;
    for &bit in bits {
        if 1 < bit {
            return Err(Refusal::NotABit);
        }
        number = number * 2 + (bit as u64);
    }
    Ok(number)
}

// The fifty bits of a number, into fifty places.
pub fn unpack(block: u64, out: &mut [u8]) -> Result<(), Refusal>
    ensures { (result ≡ unpack_of (length out.old) block) × (out.new ≡ unpacked_of out.old block) }
{
    if out.len() != 50 {
        return Err(Refusal::WrongLength);
    }
    if 0x3_FFFF_FFFF_FFFF < block {
        return Err(Refusal::NumberTooWide);
    }
    store(out, block);
    Ok(())
}

// The code and the word of a block.
pub fn read_block(block: &[u8]) -> Result<Body, Refused>
    ensures { result ≡ read_of block.now }
{
    read_packed(pack(block)?)
}

// The block of a code and a word, into fifty places.
pub fn write_block(code: u8, word: u32, out: &mut [u8]) -> Result<(), Refusal>
    ensures { (result ≡ write_of (length out.old) code) × (out.new ≡ written_of out.old code word) }
{
    if out.len() != 50 {
        return Err(Refusal::WrongLength);
    }
    unpack(write_packed(code, word)?, out)
}

// Which of two aerials' slices holds a good block, the first before the second.
pub fn choose_between(first: &[u8], second: &[u8]) -> Result<Aerial, Refused>
    ensures { result ≡ choice_of first.now second.now }
{
    between(read_block(first), read_block(second))
}

// The slice that is chosen, all fifty places, or the empty part at the first's start; number and remainder tell how the first is
// refused.
pub fn choose<'a>(
    first: &'a [u8],
    second: &'a [u8],
    number: &mut u8,
    remainder: &mut u16,
) -> &'a [u8]
    ensures bits { result.now ≡ chosen (choice_of first.now second.now) first.now second.now [] }
    ensures part { result ≡ chosen (choice_of first.now second.now) first.entry second.entry result }
    ensures place { result.ref_ptr ≡ chosen (choice_of first.now second.now) first.entry.ref_ptr second.entry.ref_ptr first.entry.ref_ptr }
    ensures number { number.new ≡ number_told (choice_of first.now second.now) }
    ensures remainder { remainder.new ≡ remainder_told (choice_of first.now second.now) }
{
    let which = choose_between(first, second);
    match which {
        Ok(Aerial::First) => {
            *number = 0;
            *remainder = 0;
            first
        }
        Ok(Aerial::Second) => {
            *number = 0;
            *remainder = 0;
            second
        }
        Err(refused) => {
            *number = u8::from(refused.refusal);
            *remainder = refused.remainder;
            &first[..0]
        }
    }
}
