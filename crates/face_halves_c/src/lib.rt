// The radio board's call as C links it: each export is the function of that name in `face_halves`.
#![tactic(auto)]

ghost use Rattle.std.specs.Prelude.{◌≡◌, length};
ghost use Rattle.face_halves.specs.Face.{decided_face};
ghost use Rattle.face_halves.specs.Under.{decided_under, written_under};

use face_halves::DecidedAnswer;

#[unsafe(no_mangle)]
pub extern "C" fn lw_decide(
    readings: &[f32],
    margin: f32,
    polarity: u8,
    bits: &mut [u8],
) -> DecidedAnswer
    ensures { (result ≡ decided_face (decided_under polarity readings.now margin (length bits.old))) × (bits.new ≡ written_under polarity readings.now margin bits.old) }
{
    face_halves::lw_decide(readings, margin, polarity, bits)
}
