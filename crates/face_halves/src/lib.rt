// The radio board's call as C sees it: a flat answer, numbered as document 02 numbers things.
#![tactic(auto)]

ghost use Rattle.std.specs.Prelude.{◌≡◌, length};
ghost use Rattle.face_halves.specs.Face.{decided_face};
ghost use Rattle.face_halves.specs.Under.{decided_under, written_under};

use halves::{Decided, Polarity};
use refusal::Refusal;

// What was decided: the refusal's number, 0 for none, then the pairing and how many bits were written, zeros where refused.
#[repr(C)]
#[derive(Clone, Copy)]
pub struct DecidedAnswer {
    pub refusal: u8,
    pub pairing: u8,
    pub bits: u64,
}

impl From<Result<Decided, Refusal>> for DecidedAnswer {
    ghost from_gives = { λ decided answer. answer ≡ decided_face decided };

    fn from(decided: Result<Decided, Refusal>) -> DecidedAnswer {
        match decided {
            Ok(decided) => DecidedAnswer {
                refusal: 0,
                pairing: u8::from(decided.pairing),
                bits: decided.count as u64,
            },
            Err(refusal) => DecidedAnswer {
                refusal: u8::from(refusal),
                pairing: 0,
                bits: 0,
            },
        }
    }
}

// Under the polarity that a number names, if it names one.
fn decide(readings: &[f32], margin: f32, polarity: u8, bits: &mut [u8]) -> Result<Decided, Refusal>
    ensures { (result ≡ decided_under polarity readings.now margin (length bits.old)) × (bits.new ≡ written_under polarity readings.now margin bits.old) }
{
    if 1 < polarity {
        return Err(Refusal::OutOfRange);
    }
    halves::decide(readings, margin, Polarity::from(polarity), bits)
}

pub fn lw_decide(readings: &[f32], margin: f32, polarity: u8, bits: &mut [u8]) -> DecidedAnswer
    ensures { (result ≡ decided_face (decided_under polarity readings.now margin (length bits.old))) × (bits.new ≡ written_under polarity readings.now margin bits.old) }
{
    DecidedAnswer::from(decide(readings, margin, polarity, bits))
}
