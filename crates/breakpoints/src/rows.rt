// The rows of a breakpoint table: seven numbers each, one row after another in a list. The last two are for groups whose pairs are limited.
ghost use Rattle.std.specs.Prelude.{◌≡◌, ◌+◌, ◌*◌, ◌≤◌, length};
ghost use Rattle.breakpoints.specs.Inner.Rows.{row_at, pair_row_at, last_row, RowWritten, PairRowWritten};

// A breakpoint: its level, T there and the sum of squares of the shares there, and how many lows and highs are passed.
#[derive(Clone, Copy)]
pub struct Row {
    pub mark: u64,
    pub total: u64,
    pub squares: u64,
    pub lows: u64,
    pub highs: u64,
}

// What a breakpoint has where pairs are limited: how far the shares there are from its level in all, and their pair differences.
#[derive(Clone, Copy)]
pub struct PairRow {
    pub far: u64,
    pub pairs: u64,
}

// The last row of a table.
#[tactic(auto, unfolding(crate::specs::Inner::Rows::last_row))]
pub fn last_row(table: &[u64]) -> usize
    requires { 7 ≤ length table.now }
    ensures { result ≡ last_row table.now }
{
    table.len() / 7 - 1
}

// Row k of a table.
#[tactic(auto, unfolding(crate::specs::Inner::Rows::row_at))]
pub fn read_row(table: &[u64], k: usize) -> Row
    requires { 7 * k + 7 ≤ length table.now }
    ensures { result ≡ row_at table.now k }
{
    let at = 7 * k;
    Row {
        mark: table[at],
        total: table[at + 1],
        squares: table[at + 2],
        lows: table[at + 3],
        highs: table[at + 4],
    }
}

// Writes row k of a table.
pub fn write_row(table: &mut [u64], k: usize, row: Row)
    requires { 7 * k + 7 ≤ length table.old }
    ensures { RowWritten k row table.old table.new }
{
    let at = 7 * k;
    table[at] = row.mark;
    table[at + 1] = row.total;
    table[at + 2] = row.squares;
    table[at + 3] = row.lows;
    table[at + 4] = row.highs;
}

// The two numbers behind row k of a table.
#[tactic(auto, unfolding(crate::specs::Inner::Rows::pair_row_at))]
pub fn read_pair_row(table: &[u64], k: usize) -> PairRow
    requires { 7 * k + 7 ≤ length table.now }
    ensures { result ≡ pair_row_at table.now k }
{
    let at = 7 * k + 5;
    PairRow {
        far: table[at],
        pairs: table[at + 1],
    }
}

// Writes the two numbers behind row k of a table.
pub fn write_pair_row(table: &mut [u64], k: usize, row: PairRow)
    requires { 7 * k + 7 ≤ length table.old }
    ensures { PairRowWritten k row table.old table.new }
{
    let at = 7 * k + 5;
    table[at] = row.far;
    table[at + 1] = row.pairs;
}
