// The Polish frame's calls as C sees them: flat answers, numbered as document 01 numbers things.
#![tactic(auto)]

ghost use Rattle.std.specs.Prelude.{◌≡◌, length};
ghost use Rattle.face_polish.specs.Face.{PolishReads, polish_face};
ghost use Rattle.polish.specs.Write.{refusal_of, write_of, written_of};

use polish::Time;
use refusal::Refusal;

// What reading a Polish frame answers, zeros where refused.
#[repr(C)]
#[derive(Clone, Copy)]
pub struct PolishAnswer {
    pub refusal: u8,
    pub time: Time,
}

impl From<Result<Time, Refusal>> for PolishAnswer {
    ghost from_gives = { λ read answer. answer ≡ polish_face read };

    fn from(read: Result<Time, Refusal>) -> PolishAnswer {
        match read {
            Ok(time) => PolishAnswer { refusal: 0, time },
            Err(refusal) => PolishAnswer {
                refusal: u8::from(refusal),
                time: Time::default(),
            },
        }
    }
}

#[unsafe(no_mangle)]
pub extern "C" fn lw_read_polish(frame: &[u8]) -> PolishAnswer
    ensures { PolishReads frame.now result }
{
    PolishAnswer::from(polish::read_frame(frame))
}

// The refusal's number, 0 where the frame is written.
// One `match` each in three faces: a shared one would be public in refusal, under one more definition.
#[unsafe(no_mangle)]
pub extern "C" fn lw_write_polish(time: Time, frame: &mut [u8]) -> u8
    ensures { (result ≡ refusal_of (write_of (length frame.old) time)) × (frame.new ≡ written_of frame.old time) }
{
    match polish::write_frame(time, frame) {
        Ok(()) => 0,
        Err(refusal) => u8::from(refusal),
    }
}
