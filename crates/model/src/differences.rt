// Pair differences.
ghost use Rattle.std.specs.Prelude.{◌≡◌, ◌≤◌, length};
ghost use Rattle.model.specs.Shares.{sum, greatest_total, most_units};
ghost use Rattle.model.specs.Figures.{pairs};
ghost use Rattle.model.specs.Inner.Orders.{Rising};

// The pair differences of numbers in rising order, from the last one: each is taken once from every later one.
pub fn sorted_pairs(xs: &[u64]) -> u64
    requires rising { Rising (length xs.now) xs.now }
    requires xs_len_bound { length xs.now ≤ most_units }
    requires xs_bound { sum xs.now ≤ greatest_total }
    ensures { result ≡ pairs xs.now }
{
    let mut pairs: u64 = 0;
    let mut sum: u64 = 0;
    let mut later: u64 = 0;
    for x in xs.iter().rev() {
        pairs += sum - later * x;
        sum += x;
        later += 1;
    }
    pairs
}
