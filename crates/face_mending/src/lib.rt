// The call that mends logged blocks as C sees it: a flat answer, numbered as documents 01 and 02 number things.
#![tactic(auto)]

ghost use Rattle.std.specs.Prelude.{◌≡◌};
ghost use Rattle.face_mending.specs.Face.{MendsFace, mended_face};

use mending::Change;
use refusal::Refusal;

// What became of a block: the refusal's number, 0 for none, then the first changed place and the pattern of the six from it, zeros
// where nothing was changed.
#[repr(C)]
#[derive(Clone, Copy)]
pub struct MendedAnswer {
    pub refusal: u8,
    pub place: u8,
    pub pattern: u8,
}

impl From<Result<Change, Refusal>> for MendedAnswer {
    ghost from_gives = { λ mended answer. answer ≡ mended_face mended };

    fn from(mended: Result<Change, Refusal>) -> MendedAnswer {
        match mended {
            Ok(change) => MendedAnswer {
                refusal: 0,
                place: change.place,
                pattern: change.pattern,
            },
            Err(refusal) => MendedAnswer {
                refusal: u8::from(refusal),
                place: 0,
                pattern: 0,
            },
        }
    }
}

#[unsafe(no_mangle)]
pub extern "C" fn lw_mend_block(bits: &mut [u8]) -> MendedAnswer
    ensures { MendsFace bits.old result bits.new }
{
    MendedAnswer::from(mending::mend(bits))
}
