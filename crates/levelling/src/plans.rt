// The figures of a group's shares.
ghost use Rattle.std.specs.Prelude.{◌≡◌, ◌≤◌, length};
ghost use Rattle.model.specs.Figures.{pairs};
ghost use Rattle.model.specs.Running.{marked_figures, marked_pairs};
ghost use Rattle.model.specs.Shares.{sum, greatest_total, most_units};
ghost use Rattle.levelling.specs.Inner.Shared.{SoundShares};

use model::differences::sorted_pairs;
use model::lists::room;
use model::running::{if_running, pack, running_count};
use model::{Deviation, Figures, Pairs, Spread};
use sorting::sort;

// The pair differences of shares, which are sorted for it.
fn pairs_among(shares: &mut [u64]) -> u64
    requires shares_len_bound { length shares.old ≤ most_units }
    requires shares_bound { sum shares.old ≤ greatest_total }
    ensures { result ≡ pairs shares.old }
{
    sort(shares);
    sorted_pairs(shares)
}

// The pair differences of the running members' shares, in room of their own.
fn pairs_of(shares: &[u64], marks: &[u64]) -> u64
    requires { SoundShares marks.now shares.now (sum shares.now) }
    ensures { result ≡ marked_pairs marks.now shares.now }
{
    let count = shares.len();
    let mut numbers = room();
    numbers[..count].copy_from_slice(shares);
    let ran = pack(marks, &mut numbers[..count]);
    pairs_among(&mut numbers[..ran])
}

// All three figures of the running members' shares. A shut member's share is 0, so its square adds nothing.
pub fn figures_of(shares: &[u64], marks: &[u64], total: u64) -> Figures
    requires { SoundShares marks.now shares.now total }
    ensures { result ≡ marked_figures marks.now total shares.now }
{
    let count = running_count(marks) as u64;
    let mut deviation: u64 = 0;
    let mut squares: u64 = 0;
    for (i, share) in shares.iter().enumerate() {
        deviation += if_running(marks[i], (count * *share).abs_diff(total));
        squares += *share * *share;
    }
    Figures {
        deviation: Deviation(deviation),
        spread: Spread::from_squares(count, squares, total),
        pairs: Pairs(pairs_of(shares, marks)),
    }
}
