// Sums of shares.
ghost use Rattle.std.specs.Prelude.{◌≡◌, ◌≤◌};
ghost use Rattle.model.specs.Shares.{sum, greatest_total};
ghost use Rattle.model.specs.Plans.{has_shares};
ghost use Rattle.model.specs.Sound.{SoundRanges};

// The sum of the numbers.
pub fn sum_of(xs: &[u64]) -> u64
    requires { sum xs.now ≤ greatest_total }
    ensures { result ≡ sum xs.now }
{
    xs.iter().sum()
}

// Whether shares with the total exist.
#[tactic(auto, using(crate::proofs::Laws::Sound::lows_small, crate::proofs::Laws::Sound::highs_small))]
pub fn has_shares(lows: &[u64], highs: &[u64], total: u64) -> bool
    requires { SoundRanges lows.now highs.now }
    ensures { result ≡ has_shares lows.now highs.now total }
{
    sum_of(lows) <= total && total <= sum_of(highs)
}
