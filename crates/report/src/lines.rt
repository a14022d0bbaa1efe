// The lines of a report, written on a page.
ghost use Rattle.std.specs.Prelude.{◌≤◌, ◌≡◌, length, drop};
ghost use mathlib.Core.List.{flatten, ◌++◌};
ghost use Rattle.print.specs.Inner.Written.{Room, Wrote};
ghost use Rattle.report.specs.Inner.Asked.{line_of_levelling};
ghost use Rattle.report.specs.Lines.{settled_line, unit_line, group_line, refusal_line};
ghost use Rattle.report.specs.Reports.{unit_lines};

use levelling::Levelled;
use model::{Figures, Refusal};
use print::Page;

// Writes the line of the passes.
pub fn put_settled_line(page: &mut Page, passes: u64)
    requires { Room page.old.bytes.now page.old.at (settled_line passes) }
    ensures wrote { Wrote (settled_line passes) page.old.bytes.now page.old.at page.new.bytes.now page.new.at }
    ensures same_reference { page.new.bytes.ghost_name ≡ page.old.bytes.ghost_name }
{
    page.line(b"(settled", &[passes]);
}

// Writes a unit's line.
fn put_unit_line(page: &mut Page, number: u64, low: u64, high: u64)
    requires { Room page.old.bytes.now page.old.at (unit_line number low high) }
    ensures wrote { Wrote (unit_line number low high) page.old.bytes.now page.old.at page.new.bytes.now page.new.at }
    ensures same_reference { page.new.bytes.ghost_name ≡ page.old.bytes.ghost_name }
{
    page.line(b"(unit", &[number, low, high]);
}

// Writes the lines of all units.
pub fn put_unit_lines(page: &mut Page, lows: &[u64], highs: &[u64])
    requires highs_len { length highs.now ≡ length lows.now }
    requires room { Room page.old.bytes.now page.old.at (flatten (unit_lines 1 lows.now highs.now)) }
    ensures wrote { Wrote (flatten (unit_lines 1 lows.now highs.now)) page.old.bytes.now page.old.at page.new.bytes.now page.new.at }
    ensures same_reference { page.new.bytes.ghost_name ≡ page.old.bytes.ghost_name }
{
    for (i, (low, high)) in lows.iter().zip(highs).enumerate() {
        put_unit_line(page, i as u64 + 1, *low, *high);
    }
}

// Writes a group's line.
fn put_group_line(page: &mut Page, number: u64, level: u64, figures: Figures, shares: &[u64])
    requires { Room page.old.bytes.now page.old.at (group_line number level figures shares.now) }
    ensures wrote { Wrote (group_line number level figures shares.now) page.old.bytes.now page.old.at page.new.bytes.now page.new.at }
    ensures same_reference { page.new.bytes.ghost_name ≡ page.old.bytes.ghost_name }
{
    page.form(
        b"(group",
        &[
            number,
            level,
            figures.deviation.0,
            figures.spread.0,
            figures.pairs.0,
        ],
    );
    page.form(b" (plan", shares);
    page.word(b"))\n");
}

// Writes the line of a levelled group; a refusal has none.
pub fn put_levelled_line(
    page: &mut Page,
    number: u64,
    levelling: Result<Levelled, Refusal>,
    shares: &[u64],
)
    requires { Room page.old.bytes.now page.old.at (line_of_levelling number levelling shares.now) }
    ensures wrote { Wrote (line_of_levelling number levelling shares.now) page.old.bytes.now page.old.at page.new.bytes.now page.new.at }
    ensures same_reference { page.new.bytes.ghost_name ≡ page.old.bytes.ghost_name }
{
    if let Ok(levelled) = levelling {
        let level = levelled.level.copies();
        put_group_line(page, number, level, levelled.figures, shares);
    }
}

// Writes a refusal's line at the start of a buffer, and hands back its length.
pub fn refusal_line(number: u64, place: u64, buffer: &mut [u8]) -> usize
    requires { 64 ≤ length buffer.old }
    ensures value { result ≡ length (refusal_line number place) }
    ensures buffer_after { buffer.new ≡ refusal_line number place ++ drop (length (refusal_line number place)) buffer.old }
{
    let mut page = Page {
        bytes: buffer,
        at: 0,
    };
    page.line(b"(refused", &[number, place]);
    page.at
}
