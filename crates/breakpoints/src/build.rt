// Building the breakpoint table of a group: the bounds of its members sorted, then a row for each. Members with one value are left out, unless
// pairs are limited.
ghost use Rattle.std.specs.Prelude.{true, ◌≡◌, ◌+◌, ◌*◌, ◌≤◌, length, take};
ghost use Rattle.model.specs.Figures.{pairs};
ghost use Rattle.model.specs.Shares.{sum, greatest_total, most_units};
ghost use Rattle.model.specs.Sound.{SoundRanges};
ghost use Rattle.model.specs.Inner.Orders.{Ordered, Rising};
ghost use Rattle.breakpoints.specs.Inner.Distances.{Paired};
ghost use Rattle.breakpoints.specs.Inner.Kept.{Kept};
ghost use Rattle.breakpoints.specs.Inner.Tables.{Breakpoints};
ghost use Rattle.breakpoints.specs.Inner.Steps.{Risen, Passed};

use crate::distances::distances_at;
use crate::rows::{PairRow, Row, last_row, read_row, write_pair_row, write_row};
use crate::table::{first_row, next_row};
use model::differences::sorted_pairs;
use model::lists::copy;
use sorting::sort;

// Writes the lows and highs of the members with several values over starts and stops, and hands back how many they are.
// The others' shares are the same at every level, so that their bounds need no rows.
fn gather(lows: &[u64], highs: &[u64], starts: &mut [u64], stops: &mut [u64]) -> usize
    requires sound_ranges { SoundRanges lows.now highs.now }
    requires starts_len { length starts.old ≡ length lows.now }
    requires stops_len { length stops.old ≡ length lows.now }
    ensures upper_bound { result ≤ length lows.now }
    ensures kept { Kept lows.now highs.now (take result starts.new) (take result stops.new) }
{
    let mut count: usize = 0;
    for (low, high) in lows.iter().zip(highs) {
        // A single value is written over by the next member's.
        starts[count] = *low;
        stops[count] = *high;
        count += usize::from(low < high);
    }
    count
}

// Fills the table from the sorted bounds, row after row, each made from the one before.
fn fill(lows: &[u64], highs: &[u64], starts: &[u64], stops: &[u64], table: &mut [u64])
    requires sound_ranges { SoundRanges lows.now highs.now }
    requires risen { Risen lows.now highs.now starts.now stops.now }
    requires table_len { length table.old ≡ 7 * (2 * length starts.now) + 7 }
    ensures breakpoints { Breakpoints lows.now highs.now table.new }
    ensures passed { Passed starts.now table.new }
{
    let mut row = first_row(lows, highs);
    write_row(table, 0, row);
    for k in 0..2 * starts.len() {
        row = next_row(lows, highs, starts, stops, row);
        write_row(table, k + 1, row);
    }
}

// The table of the bounds gathered, which are in order afterwards.
fn build_on(lows: &[u64], highs: &[u64], starts: &mut [u64], stops: &mut [u64], table: &mut [u64])
    requires sound_ranges { SoundRanges lows.now highs.now }
    requires kept { Kept lows.now highs.now starts.old stops.old }
    requires table_len { length table.old ≡ 7 * (2 * length starts.old) + 7 }
    ensures ordered { Ordered (length starts.old) starts.old starts.new }
    ensures breakpoints { Breakpoints lows.now highs.now table.new }
    ensures passed { Passed starts.new table.new }
{
    sort(starts);
    sort(stops);
    fill(lows, highs, starts, stops, table);
}

// The two numbers behind the first row: at level 0 the shares are the lows.
fn first_pair_row(starts: &[u64], row: Row) -> PairRow
    requires rising { Rising (length starts.now) starts.now }
    requires starts_len_bound { length starts.now ≤ most_units }
    requires starts_bound { sum starts.now ≤ greatest_total }
    ensures { (result.far ≡ row.total) × (result.pairs ≡ pairs starts.now) }
{
    PairRow {
        far: row.total,
        pairs: sorted_pairs(starts),
    }
}

// Writes the two numbers behind each row, each row's made from those of the one before. All members' bounds have rows.
fn fill_pairs(lows: &[u64], highs: &[u64], starts: &[u64], table: &mut [u64])
    requires sound_ranges { SoundRanges lows.now highs.now }
    requires ordered { Ordered (length lows.now) lows.now starts.now }
    requires breakpoints { Breakpoints lows.now highs.now table.old }
    requires passed { Passed starts.now table.old }
    ensures breakpoints_2 { Breakpoints lows.now highs.now table.new }
    ensures paired { Paired lows.now highs.now table.new }
{
    let last = last_row(table);
    let count = lows.len() as u64;
    let mut row = read_row(table, 0);
    let mut here = first_pair_row(starts, row);
    write_pair_row(table, 0, here);
    for k in 0..last {
        let next = read_row(table, k + 1);
        let there = distances_at(count, row, here, next.mark);
        here = PairRow {
            far: there.far,
            pairs: there.pairs,
        };
        write_pair_row(table, k + 1, here);
        row = next;
    }
}

// Builds the table of the members with several values at the front of a list, and hands back its length.
fn build_several(
    lows: &[u64],
    highs: &[u64],
    starts: &mut [u64],
    stops: &mut [u64],
    table: &mut [u64],
) -> usize
    requires sound_ranges { SoundRanges lows.now highs.now }
    requires starts_len { length starts.old ≡ length lows.now }
    requires stops_len { length stops.old ≡ length lows.now }
    requires lows_in_bounds { 7 * (2 * length lows.now) + 7 ≤ length table.old }
    ensures upper_bound { result ≤ length table.new }
    ensures breakpoints { Breakpoints lows.now highs.now (take result table.new) }
{
    let count = gather(lows, highs, starts, stops);
    let size = 14 * count + 7;
    build_on(
        lows,
        highs,
        &mut starts[..count],
        &mut stops[..count],
        &mut table[..size],
    );
    size
}

// The table of all members, with the numbers that pairs take.
fn build_paired(
    lows: &[u64],
    highs: &[u64],
    starts: &mut [u64],
    stops: &mut [u64],
    table: &mut [u64],
)
    requires sound_ranges { SoundRanges lows.now highs.now }
    requires starts_len { length starts.old ≡ length lows.now }
    requires stops_len { length stops.old ≡ length lows.now }
    requires table_len { length table.old ≡ 7 * (2 * length lows.now) + 7 }
    ensures breakpoints { Breakpoints lows.now highs.now table.new }
    ensures paired { Paired lows.now highs.now table.new }
{
    copy(lows, starts);
    copy(highs, stops);
    build_on(lows, highs, starts, stops, table);
    fill_pairs(lows, highs, starts, table);
}

// Builds the table of a group at the front of a list, with the numbers that pairs take where these are asked for, and hands back its
// length. The two further lists, as long as the group, are room to work in.
pub fn build(
    lows: &[u64],
    highs: &[u64],
    starts: &mut [u64],
    stops: &mut [u64],
    table: &mut [u64],
    paired: bool,
) -> usize
    requires sound_ranges { SoundRanges lows.now highs.now }
    requires starts_len { length starts.old ≡ length lows.now }
    requires stops_len { length stops.old ≡ length lows.now }
    requires lows_in_bounds { 7 * (2 * length lows.now) + 7 ≤ length table.old }
    ensures upper_bound { result ≤ length table.new }
    ensures breakpoints { Breakpoints lows.now highs.now (take result table.new) }
    ensures paired { paired ≡ true → Paired lows.now highs.now (take result table.new) }
{
    if !paired {
        return build_several(lows, highs, starts, stops, table);
    }
    let size = 14 * lows.len() + 7;
    build_paired(lows, highs, starts, stops, &mut table[..size]);
    size
}
