// A block as it is sent, on demand with one bit exchanged, and what is left to send after it.
ghost use Rattle.std.specs.Prelude.{map, ◌≡◌};
ghost use Rattle.record.specs.Editions.{filler};
ghost use Rattle.transmit.specs.Blocks.{word_sent, is_damaged, place_of, after_of, exchanged_at, character_of, block_sent};

use crate::chance::{drawn, stepped};
use record::{Edition, Record};

// What is left to send: blocks, how many of them to damage, and where chance stands.
#[derive(Clone, Copy)]
pub struct Left {
    pub blocks: u32,
    pub damaged: u32,
    pub chance: u64,
}

pub fn filler(edition: Edition) -> u32
    ensures { result ≡ filler edition }
{
    match edition {
        Edition::Of1984 => 0x8000_0000,
        Edition::Of1982 => 0,
    }
}

#[tactic(auto, unfolding(crate::specs::Blocks::word_sent))]
pub fn word_of(edition: Edition, record: Record) -> u32
    ensures { result ≡ word_sent edition «record» }
{
    record::write_record(record).unwrap_or(filler(edition))
}

#[tactic(auto, unfolding(crate::specs::Blocks::is_damaged))]
fn is_damaged(left: Left) -> bool
    ensures { result ≡ is_damaged left }
{
    drawn(stepped(left.chance), left.blocks) < left.damaged
}

// Where the next block is damaged, if it is.
#[tactic(auto, unfolding(crate::specs::Blocks::place_of))]
fn place_of(left: Left) -> Option<u32>
    ensures { result ≡ place_of left }
{
    is_damaged(left).then_some(drawn(stepped(left.chance) / 0x1_0000, 50))
}

// What is left after the next block.
#[tactic(auto, unfolding(crate::specs::Blocks::after_of))]
pub fn after(left: Left) -> Left
    ensures { result ≡ after_of left }
{
    let damaged = if is_damaged(left) {
        left.damaged.saturating_sub(1)
    } else {
        left.damaged
    };
    Left {
        blocks: left.blocks.saturating_sub(1),
        damaged,
        chance: stepped(left.chance),
    }
}

#[tactic(auto, unfolding(crate::specs::Blocks::exchanged_at))]
fn exchanged(bits: [u8; 50], place: Option<u32>) -> [u8; 50]
    ensures { result ≡ exchanged_at place bits }
{
    let mut out = bits;
    if let Some(place) = place {
        let at = place as usize;
        if at < 50 {
            out[at] ^= 1;
        }
    }
    out
}

#[tactic(auto, unfolding(crate::specs::Blocks::character_of))]
fn character(bit: u8) -> u8
    ensures { result ≡ character_of bit }
{
    if bit == 0 { b'0' } else { b'1' }
}

fn characters(bits: [u8; 50]) -> [u8; 50]
    ensures { result ≡ map character_of bits }
{
    let mut line = bits;
    // A loop, since with the array's own `map` a feed took three times as many instructions.
    for (i, place) in line.iter_mut().enumerate() {
        *place = character(bits[i]);
    }
    line
}

// The next block as it is sent: of code 0, which is never refused, and damaged if its turn has come.
#[tactic(auto, unfolding(crate::specs::Blocks::block_sent))]
pub fn block_sent(left: Left, word: u32) -> [u8; 50]
    ensures { result ≡ block_sent left word }
{
    let mut bits = [0u8; 50];
    let _ = block::write_block(0, word, &mut bits);
    characters(exchanged(bits, place_of(left)))
}
