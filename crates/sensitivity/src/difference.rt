// The difference of two costs: its sign and its size.
ghost use Rattle.std.specs.Prelude.{◌≡◌, pos, nat_abs};
ghost use Rattle.std.specs.Int.Signed.{lt_z};
ghost use Rattle.sensitivity.specs.alike.Alike.{cost_difference};

// The new cost less the old. An i32 holds it for any two costs.
pub fn cost_difference(old: u16, new: u16) -> i32
    ensures { result ≡ cost_difference old new }
{
    i32::from(new) - i32::from(old)
}

// Whether a difference is below 0.
pub fn is_negative(difference: i32) -> bool
    ensures { result ≡ lt_z difference (pos 0) }
{
    difference.is_negative()
}

// The absolute value, as a u32, so that it fits even for the least i32.
pub fn distance(difference: i32) -> u32
    ensures { result ≡ nat_abs difference }
{
    difference.unsigned_abs()
}
