// Lists of a table's numbers: saved and restored, and the sum of its widths.
ghost use Rattle.std.specs.Prelude.{◌+◌, ◌≤◌, ◌++◌, ◌≡◌, length, take, drop};
ghost use Rattle.model.specs.Sound.{SoundRanges};
ghost use Rattle.member_ranges.specs.Tables.{widths};

use model::lists::copy;
use model::shares::sum_of;

// The sum of high − low.
#[tactic(auto, using(crate::specs::Laws::Inside::widths_sums, model::proofs::Laws::Sound::lows_small, model::proofs::Laws::Sound::highs_small))]
pub fn width_of(lows: &[u64], highs: &[u64]) -> u64
    requires { SoundRanges lows.now highs.now }
    ensures { result ≡ widths lows.now highs.now }
{
    sum_of(highs) - sum_of(lows)
}

// Writes a table's lows and then its highs over the first numbers of a list.
pub fn save(lows: &[u64], highs: &[u64], scratch: &mut [u64])
    requires { length lows.now + length highs.now ≤ length scratch.old }
    ensures { scratch.new ≡ lows.now ++ (highs.now ++ drop (length lows.now + length highs.now) scratch.old) }
{
    let middle = lows.len();
    let end = middle + highs.len();
    copy(lows, &mut scratch[..middle]);
    copy(highs, &mut scratch[middle..end]);
}

// Writes the first numbers of a list over a table's lows, and the next ones over its highs.
pub fn restore(scratch: &[u64], lows: &mut [u64], highs: &mut [u64])
    requires { length lows.old + length highs.old ≤ length scratch.now }
    ensures lows_after { lows.new ≡ take (length lows.old) scratch.now }
    ensures highs_after { highs.new ≡ take (length highs.old) (drop (length lows.old) scratch.now) }
{
    let middle = lows.len();
    let end = middle + highs.len();
    copy(&scratch[..middle], lows);
    copy(&scratch[middle..end], highs);
}
