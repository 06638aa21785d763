// The calls for remainders of long strings as C sees them: flat answers, numbered as documents 01 and 02 number things.
#![tactic(auto)]

ghost use Rattle.std.specs.Prelude.{◌≡◌};
ghost use Rattle.face_joining.specs.Face.{remainder_face};
ghost use Rattle.joining.specs.Joining.{remainder_of, join_of};

use refusal::Refusal;

// What a string leaves: the refusal's number, 0 for none, then the remainder, zero where refused.
#[repr(C)]
#[derive(Clone, Copy)]
pub struct RemainderAnswer {
    pub refusal: u8,
    pub remainder: u16,
}

impl From<Result<u16, Refusal>> for RemainderAnswer {
    ghost from_gives = { λ divided answer. answer ≡ remainder_face divided };

    fn from(divided: Result<u16, Refusal>) -> RemainderAnswer {
        match divided {
            Ok(remainder) => RemainderAnswer {
                refusal: 0,
                remainder,
            },
            Err(refusal) => RemainderAnswer {
                refusal: u8::from(refusal),
                remainder: 0,
            },
        }
    }
}

#[unsafe(no_mangle)]
pub extern "C" fn lw_remainder_of(bits: &[u8]) -> RemainderAnswer
    ensures { result ≡ remainder_face (remainder_of bits.now) }
{
    RemainderAnswer::from(joining::remainder_of(bits))
}

// The length is the second string's.
#[unsafe(no_mangle)]
pub extern "C" fn lw_join(first: u16, second: u16, length: u32) -> RemainderAnswer
    ensures { result ≡ remainder_face (join_of first second length) }
{
    RemainderAnswer::from(joining::join(first, second, length))
}
