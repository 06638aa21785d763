// The Polish 225 kHz frame of twelve bytes, read and written (document 02, No. 10; source document 002).
#![tactic(auto)]

mod crc;

ghost use Rattle.std.specs.Prelude.{◌≡◌, ◌<◌, ◌^◌, length};
ghost use Rattle.polish.specs.Frame.{flags_of, body_of, time_in, framed};
ghost use Rattle.polish.specs.Read.{Behind, Reads};
ghost use Rattle.polish.specs.Write.{fitting, FieldsFit, write_of, written_of};

use big_endian::number_of;
use crc::crc;
use refusal::Refusal;

// What a frame tells.
#[repr(C)]
#[derive(Clone, Copy, Default)]
pub struct Time {
    // Three-second periods since 1 January 2000.
    pub periods: u32,
    // These and the flags below are plain numbers, since C has them, and `fits` answers for each.
    // Local time: the source's table says what the two mean together.
    pub tz0: u8,
    pub tz1: u8,
    // A leap second is announced, and its sign.
    pub ls: u8,
    pub lss: u8,
    // Local time changes on Sunday.
    pub tzc: u8,
    // The state of the transmitter.
    pub sk0: u8,
    pub sk1: u8,
}

// What bytes 4 to 8 are scrambled with.
const KEY: u64 = 0x0A_4755_4D2B;

#[tactic(auto, unfolding(crate::specs::Frame::time_in))]
fn time_in(body: u64) -> Time
    ensures { result ≡ time_in body }
{
    let plain = body ^ KEY;
    let flag = |place: u32| ((plain >> place) % 2) as u8;
    Time {
        periods: ((plain >> 7) % 0x4000_0000) as u32,
        tz0: flag(6),
        tz1: flag(5),
        ls: flag(4),
        lss: flag(3),
        tzc: flag(2),
        sk0: flag(1),
        sk1: flag(0),
    }
}

impl Time {
    fn flags(self) -> [u8; 7]
        ensures { result ≡ flags_of self }
    {
        [
            self.tz0, self.tz1, self.ls, self.lss, self.tzc, self.sk0, self.sk1,
        ]
    }

    // Whether the count has at most 30 bits, and each of the others one.
    #[tactic(auto, using(crate::proofs::Bounds::fits_is))]
    fn fits(self) -> bool
        ensures { result ≡ fitting self }
    {
        self.periods < 0x4000_0000 && self.flags().iter().all(|flag| *flag < 2)
    }
}

fn body_of(time: Time) -> u64
    requires { FieldsFit time }
    ensures { (result < 2 ^ 40) × (result ≡ body_of time) }
{
    let mut plain = 0x1_4000_0000 + u64::from(time.periods);
    for flag in time.flags() {
        plain = plain * 2 + u64::from(flag);
    }
    plain ^ KEY
}

// What is told behind the right fixed bits.
fn read_behind(body: u64, checks: u64, sent: u8) -> Result<Time, Refusal>
    requires { (body < 2 ^ 40) × (checks < 2 ^ 24) }
    ensures { Behind body checks sent result }
{
    let received = body / 2 % 0x10_0000_0000 * 0x100_0000 + checks;
    let word = symbols::mend(received).ok_or(Refusal::NoCodeword)?;
    let mended = 0xA0_0000_0000 + word / 0x100_0000 * 2 + body % 2;
    if crc(mended) != sent {
        return Err(Refusal::WrongCrc);
    }
    Ok(time_in(mended))
}

// What twelve bytes tell; up to three wrong symbols of the fifteen are mended.
pub fn read_frame(frame: &[u8]) -> Result<Time, Refusal>
    ensures { Reads frame.now result }
{
    if frame.len() != 12 {
        return Err(Refusal::WrongSize);
    }
    if frame[..3] != [0x55, 0x55, 0x60] || frame[3] / 32 != 5 {
        return Err(Refusal::WrongFixedBits);
    }
    read_behind(number_of(&frame[3..8]), number_of(&frame[8..11]), frame[11])
}

fn bytes_of(body: u64) -> [u8; 12]
    requires { body < 2 ^ 40 }
    ensures { result ≡ framed body }
{
    let [_, _, _, first, second, third, fourth, fifth] = body.to_be_bytes();
    let [_, high, middle, low] = symbols::checks(body / 2).to_be_bytes();
    [
        0x55,
        0x55,
        0x60,
        first,
        second,
        third,
        fourth,
        fifth,
        high,
        middle,
        low,
        crc(body),
    ]
}

// The frame of a time, into twelve places.
pub fn write_frame(time: Time, frame: &mut [u8]) -> Result<(), Refusal>
    ensures { (result ≡ write_of (length frame.old) time) × (frame.new ≡ written_of frame.old time) }
{
    if frame.len() != 12 || !time.fits() {
        return Err(Refusal::WrongSize);
    }
    frame.copy_from_slice(&bytes_of(body_of(time)));
    Ok(())
}
