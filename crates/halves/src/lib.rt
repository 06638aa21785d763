// Half-bit readings of the radio board become bits (document 02, No. 1).
#![tactic(auto)]

mod pairs;
mod readings;

ghost use Rattle.std.specs.Prelude.{◌++◌, ◌≡◌, ◌/◌, ◌≤◌, length};
ghost use Rattle.halves.specs.Answer.{room_for, chosen_of, plan_of, written_of};
ghost use Rattle.halves.specs.Decision.{bits_of};
ghost use Rattle.halves.specs.Pairs.{start_of, pairs_of};
ghost use Rattle.halves.specs.Polarities.{polarity_of};

use pairs::count_opposite;
use readings::{all_in_range, is_margin};
use refusal::Refusal;

// Two readings that belong together, in degrees.
#[derive(Clone, Copy)]
pub struct Pair {
    pub first: f32,
    pub second: f32,
}

// Whether 0 and 1 are exchanged.
#[derive(Clone, Copy)]
pub enum Polarity {
    AsItStands,
    Exchanged,
}

// 0 is as it stands; another number exchanges. Who refuses numbers above 1 tests them first: with a `TryFrom` that refuses them the compiler asks
// for the polarity again at each pair, and deciding is slower.
impl From<u8> for Polarity {
    ghost from_gives = { λ number polarity. polarity ≡ polarity_of number };

    fn from(number: u8) -> Polarity {
        if number == 0 {
            Polarity::AsItStands
        } else {
            Polarity::Exchanged
        }
    }
}

// How many readings stand before the first pair.
#[derive(Clone, Copy)]
pub enum Pairing {
    FromFirst = 0,
    FromSecond = 1,
}

impl From<Pairing> for u8 {
    ghost from_gives = { λ pairing start. start ≡ start_of pairing };

    fn from(pairing: Pairing) -> u8 {
        pairing as u8
    }
}

// The pairing, and how many bits it gives.
#[derive(Clone, Copy)]
pub struct Decided {
    pub pairing: Pairing,
    pub count: usize,
}

// A pairing is taken where there is room for its bits.
fn room_for(pairing: Pairing, count: usize, room: usize) -> Result<Decided, Refusal>
    ensures { result ≡ room_for room pairing count }
{
    if room < count {
        return Err(Refusal::NoRoom);
    }
    Ok(Decided { pairing, count })
}

// The pairing with more pairs of opposite sign over the first 64 readings.
fn choose(readings: &[f32], room: usize) -> Result<Decided, Refusal>
    requires { 64 ≤ length readings.now }
    ensures { result ≡ chosen_of readings.now room }
{
    let from_first = count_opposite(&readings[..64]);
    let from_second = count_opposite(&readings[1..64]);
    if from_second < from_first {
        return room_for(Pairing::FromFirst, readings.len() / 2, room);
    }
    if from_first < from_second {
        return room_for(Pairing::FromSecond, (readings.len() - 1) / 2, room);
    }
    Err(Refusal::EqualPairings)
}

// What will be written, if anything: the tests in their order.
fn plan(readings: &[f32], margin: f32, room: usize) -> Result<Decided, Refusal>
    ensures { result ≡ plan_of readings.now margin room }
{
    if readings.len() < 64 {
        return Err(Refusal::TooFewReadings);
    }
    if all_in_range(readings) & is_margin(margin) {
        return choose(readings, room);
    }
    Err(Refusal::OutOfDegrees)
}

// A bit for each pair.
fn write_bits(readings: &[f32], margin: f32, polarity: Polarity, bits: &mut [u8])
    requires { length bits.old ≡ length readings.now / 2 }
    ensures { bits.new ≡ bits_of polarity margin (pairs_of readings.now) }
{
    let (pairs, _) = readings.as_chunks::<2>();
    // Of what a loop over `bits.iter_mut().zip(pairs)` writes nothing can be proved.
    for (n, bit) in bits.iter_mut().enumerate() {
        *bit = Pair::from(pairs[n]).bit(margin, polarity);
    }
}

// Readings in, bits out, to the front of the lent slice.
pub fn decide(
    readings: &[f32],
    margin: f32,
    polarity: Polarity,
    bits: &mut [u8],
) -> Result<Decided, Refusal>
    ensures { (result ≡ plan_of readings.now margin (length bits.old)) × (bits.new ≡ written_of readings.now margin polarity bits.old) }
{
    let decided = plan(readings, margin, bits.len())?;
    let start = u8::from(decided.pairing) as usize;
    write_bits(
        &readings[start..],
        margin,
        polarity,
        &mut bits[..decided.count],
    );
    Ok(decided)
}
