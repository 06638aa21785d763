// Which readings and margins are in range.
ghost use Rattle.std.specs.Prelude.{◌≡◌};
ghost use Rattle.halves.specs.Readings.{in_range, all_in_range, is_margin};

fn in_range(reading: f32) -> bool
    ensures { result ≡ in_range reading }
{
    (-45.0 <= reading) & (reading <= 45.0)
}

// Every reading is looked at, and no test is left early: so several are tested at once.
pub fn all_in_range(readings: &[f32]) -> bool
    ensures { result ≡ all_in_range readings.now }
{
    readings
        .iter()
        .fold(true, |fine, reading| fine & in_range(*reading))
}

pub fn is_margin(margin: f32) -> bool
    ensures { result ≡ is_margin margin }
{
    (0.0 <= margin) & (margin <= 90.0)
}
