// Two numbers.
ghost use Rattle.std.specs.Prelude.{◌≡◌};
ghost use Rattle.model.specs.Figures.{apart};

// The difference of two numbers.
pub fn apart(a: u64, b: u64) -> u64
    ensures { result ≡ apart a b }
{
    a.abs_diff(b)
}
