// One member at a level.
ghost use Rattle.std.specs.Prelude.{◌≡◌, ◌≤◌, min};
ghost use Rattle.model.specs.Levels.{clamp, growth};

// A level moved into a range.
pub fn clamp(low: u64, high: u64, v: u64) -> u64
    requires { low ≤ high }
    ensures { result ≡ clamp low high v }
{
    v.clamp(low, high)
}

// Whether a member can take one copy more at a level: 1 or 0.
pub fn growth(low: u64, high: u64, v: u64) -> u64
    ensures { result ≡ growth low high v }
{
    u64::from(low <= v && v < high)
}

// The copy that a member takes of those left over: one, or none.
pub fn extra(low: u64, high: u64, v: u64, left: u64) -> u64
    ensures { result ≡ min left (growth low high v) }
{
    left.min(growth(low, high, v))
}
