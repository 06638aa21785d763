// The test generator: writes the bits of a feed, thirty blocks a minute, the time block last and fillers before it.
#![tactic(auto)]

mod blocks;
mod chance;
mod command;

ghost use Rattle.std.specs.Prelude.{IfOk};
ghost use Rattle.transmit.specs.Blocks.{Follows};

use blocks::{Left, after, block_sent, filler, word_of};
use command::asked;
use console::{Failure, is_done, put};
use record::{Edition, Record};

// What is asked for: the edition, the first minute's record, how many minutes and damaged blocks, and the seed of chance.
#[derive(Clone, Copy)]
pub struct Feed {
    pub edition: Edition,
    pub record: Record,
    pub minutes: u16,
    pub damaged: u32,
    pub seed: u32,
}

fn send_block(rt: &impl Print, left: Left, word: u32) -> Result<Left, Failure>
    ensures { IfOk result (Follows 1 left) }
{
    put(rt, &block_sent(left, word))?;
    Ok(after(left))
}

fn send_fillers(rt: &impl Print, edition: Edition, start: Left) -> Result<Left, Failure>
    ensures { IfOk result (Follows 29 start) }
{
    let word = filler(edition);
    let mut left = start;
    for _ in 0..29u32 {
        left = send_block(rt, left, word)?;
    }
    Ok(left)
}

// Twenty-nine fillers, the time block, and the end of the line.
fn send_minute(
    rt: &impl Print,
    edition: Edition,
    start: Left,
    record: Record,
) -> Result<Left, Failure>
    ensures { IfOk result (Follows 30 start) }
{
    let last = send_fillers(rt, edition, start)?;
    let left = send_block(rt, last, word_of(edition, record))?;
    put(rt, b"\n")?;
    Ok(left)
}

// Minute after minute, as long as standard output takes it.
fn send(rt: &impl Print, feed: Feed) -> Result<(), Failure> {
    let mut record = feed.record;
    let mut left = Left {
        blocks: u32::from(feed.minutes) * 30,
        damaged: feed.damaged,
        chance: chance::from(feed.seed),
    };
    for _ in 0..feed.minutes {
        left = send_minute(rt, feed.edition, left, record)?;
        // The record of a date always has a next minute.
        let Ok(next) = calendar::next_minute(feed.edition, record) else {
            break;
        };
        record = next;
    }
    Ok(())
}

fn main(rt: HostRuntime) {
    match asked(&rt) {
        Ok(feed) => {
            is_done(&rt, "transmit", send(&rt, feed));
        }
        // Where standard error takes nothing there is nowhere else to tell it.
        Err(wrong) => {
            let _ = eprintln!(rt; "transmit: {wrong}");
        }
    }
}
