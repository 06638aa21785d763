// Chance that comes the same way again from the same seed.
ghost use Rattle.std.specs.Prelude.{◌≡◌};
ghost use Rattle.transmit.specs.Chance.{seeded, stepped_of, drawn_of};

// The state that a seed gives: never 0, where chance would stay.
pub fn from(seed: u32) -> u64
    ensures { result ≡ seeded seed }
{
    seed as u64 + 0x9e37_79b9_7f4a_7c15
}

// The next state: three shifts, each added without carry.
#[tactic(auto, unfolding(crate::specs::Chance::stepped_of, crate::specs::Chance::up, crate::specs::Chance::down))]
pub fn stepped(s: u64) -> u64
    ensures { result ≡ stepped_of s }
{
    let a = s ^ (s % 0x8_0000_0000_0000 * 0x2000);
    let b = a ^ (a / 0x80);
    b ^ (b % 0x8000_0000_0000 * 0x2_0000)
}

// A number below the bound; 0 where nothing is below it.
#[tactic(auto, unfolding(crate::specs::Chance::drawn_of))]
pub fn drawn(s: u64, below: u32) -> u32
    ensures { result ≡ drawn_of s below }
{
    if below == 0 {
        return 0;
    }
    (s / 0x1_0000_0000) as u32 % below
}
