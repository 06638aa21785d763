// The window: the bits that wait, up to fifty, as the number that they write, with what the circuit makes of them.
ghost use Rattle.std.specs.Prelude.{true, ◌&&◌, not, ◌≡◌, ◌<◌, ◌≤◌, ◌+◌, ◌-◌, ◌*◌, ◌/◌, ◌%◌, ◌^◌, eqb};
ghost use Rattle.block.specs.Bits.{bits_of};
ghost use Rattle.block.specs.Division.{remainder};
ghost use Rattle.block.specs.Read.{read_of};
ghost use Rattle.locking.specs.Locks.{hunting};
ghost use Rattle.locking.specs.Modes.{is_good};

use crate::PackedState;
use block::circuit::{remainder, turn};
use locking::Lock;

// The register holds what the bits leave.
#[derive(Clone, Copy)]
pub struct Window {
    pub bits: u64,
    pub register: u32,
    pub waiting: u32,
    pub ghost room: { waiting ≤ 50 },
    pub ghost few: { bits < 2 ^ waiting },
    pub ghost turned: { register ≡ remainder (bits_of waiting bits) },
}

// What the last of so many waiting bits weighs in the packed state; where none waits, 2^50.
pub fn weight(waiting: u32) -> u64
    requires { waiting ≤ 50 }
    ensures { result ≡ 2 ^ (50 - waiting) }
{
    1u64 << (50 - waiting)
}

// What x^49 leaves: what the first bit of a full window, a 1, has put into the register.
const FIRST: u32 = 0x1283;

impl Window {
    // The bits that wait in a state. Where none does, as behind a change of lock or of the time, there is nothing to divide.
    pub fn of(state: PackedState) -> Window
        requires { (state.waiting < 50) × (state.bits < 2 ^ 50) }
        ensures { (result.waiting ≡ state.waiting) × (result.bits ≡ state.bits / 2 ^ (50 - state.waiting)) }
    {
        let waiting = state.waiting as u32;
        let bits = state.bits / weight(waiting);
        let mut register = 0;
        if 0 < waiting {
            register = remainder(bits);
        }
        Window {
            bits,
            register,
            waiting,
        }
    }

    // Nothing waits.
    pub fn empty() -> Window
        ensures { (result.waiting ≡ 0) × (result.bits ≡ 0) }
    {
        Window {
            bits: 0,
            register: 0,
            waiting: 0,
        }
    }

    // One bit more: the circuit turns once.
    pub fn join(self, bit: u8) -> Window
        requires { (self.waiting < 50) × (bit < 2) }
        ensures { (result.waiting ≡ self.waiting + 1) × (result.bits ≡ self.bits * 2 + bit) }
    {
        Window {
            bits: self.bits * 2 + (bit as u64),
            register: turn(self.register, bit) as u32,
            waiting: self.waiting + 1,
        }
    }

    // What a full window leaves without its first bit, whose part is taken off the register again. The part is chosen before the
    // register is touched: so the choice does not have to wait for the turn.
    pub fn behind_first(self) -> u32
        requires { self.waiting ≡ 50 }
        ensures { result ≡ remainder (bits_of 49 self.bits) }
    {
        let mut part = FIRST;
        if self.bits < 0x2_0000_0000_0000 {
            part = 0;
        }
        self.register ^ part
    }

    // Whether a full window passes its oldest bit over: when hunting, unless it is a good block, which starts with 1 and leaves what
    // that 1 leaves. Both are looked at in one test, which noise nearly always fails; its first bit alone is 1 half the time.
    pub fn is_passed_over(self, mode: u8) -> bool
        requires { self.waiting ≡ 50 }
        ensures { result ≡ eqb mode hunting && not (is_good (read_of (bits_of 50 self.bits))) }
    {
        if mode != Lock::HUNTING {
            return false;
        }
        let start = self.bits / 0x2_0000_0000_0000;
        if start * 0x2000 + (self.register as u64) == 0x2000 + 0x1283 {
            return false;
        }
        true
    }

    // A full window without its oldest bit, whose part in the register is taken off.
    pub fn move_on(self, left: u32) -> Window
        requires { left ≡ remainder (bits_of 49 self.bits) }
        ensures { (result.waiting ≡ 49) × (result.bits ≡ self.bits % 2 ^ 49) }
    {
        Window {
            bits: self.bits % 0x2_0000_0000_0000,
            register: left,
            waiting: 49,
        }
    }
}
