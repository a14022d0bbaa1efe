// The calls on a job text and a table of ranges, for C and Rust.
ghost use Rattle.std.specs.Prelude.{◌≡◌, length};
ghost use Rattle.job.specs.Reading.{reading_of, read_table, lows_after, highs_after};
ghost use Rattle.works.specs.Calls.{settle_text};
ghost use Rattle.report.specs.Calls.{report_text};
ghost use Rattle.writer.specs.Calls.{write_text};
ghost use Rattle.table.specs.Tables.{lows_in, highs_in};
ghost use Rattle.planner.specs.Foreign.{foreign_read, foreign_settled, foreign_report, foreign_written};

use crate::{ACCEPTED, ForeignRead, ForeignRefusal, ForeignReport, ForeignSettled, ForeignWritten};
use job::Counts;
use model::Refusal;
use report::Written;
use table::Range;
use works::Unsettled;

// A reading as C gets it.
impl From<Result<Counts, Refusal>> for ForeignRead {
    ghost from_gives = { λ answer foreign. foreign ≡ foreign_read answer };

    fn from(answer: Result<Counts, Refusal>) -> ForeignRead {
        match answer {
            Ok(counts) => ForeignRead {
                refusal: ACCEPTED,
                units: counts.units,
                groups: counts.groups,
            },
            Err(refusal) => ForeignRead {
                refusal: refusal.into(),
                units: 0,
                groups: 0,
            },
        }
    }
}

// Reads a job text into a table, as table::read does.
#[unsafe(no_mangle)]
pub extern "C" fn danivomel_read(text: &[u8], table: &mut [Range]) -> ForeignRead
    ensures value { result ≡ foreign_read (reading_of (read_table text.now (length (lows_in table.old)) (length (highs_in table.old)))) }
    ensures table_after { lows_in table.new ≡ lows_after (read_table text.now (length (lows_in table.old)) (length (highs_in table.old))) (lows_in table.old) }
    ensures table_after_2 { highs_in table.new ≡ highs_after (read_table text.now (length (lows_in table.old)) (length (highs_in table.old))) (highs_in table.old) }
{
    table::read(text, table).into()
}

// A settling as C gets it.
impl From<Result<u64, Unsettled>> for ForeignSettled {
    ghost from_gives = { λ answer foreign. foreign ≡ foreign_settled answer };

    fn from(answer: Result<u64, Unsettled>) -> ForeignSettled {
        match answer {
            Ok(passes) => ForeignSettled {
                refusal: ACCEPTED,
                passes,
            },
            Err(
                Unsettled::NoPlan {
                    number,
                    place,
                    passes,
                },
            ) => ForeignSettled {
                refusal: ForeignRefusal { number, place },
                passes,
            },
            Err(Unsettled::Refused(refusal)) => ForeignSettled {
                refusal: refusal.into(),
                passes: 0,
            },
        }
    }
}

// Settles a job text over a table, as table::settle does.
#[unsafe(no_mangle)]
pub extern "C" fn danivomel_settle(
    text: &[u8],
    table: &mut [Range],
    scratch: &mut [u64],
) -> ForeignSettled
    ensures value { result ≡ foreign_settled (settle_text text.now (lows_in table.old) (highs_in table.old) (length scratch.old)).answer }
    ensures table_after { lows_in table.new ≡ (settle_text text.now (lows_in table.old) (highs_in table.old) (length scratch.old)).lows }
    ensures table_after_2 { highs_in table.new ≡ (settle_text text.now (lows_in table.old) (highs_in table.old) (length scratch.old)).highs }
{
    table::settle(text, table, scratch).into()
}

// A report's answer as C gets it.
impl From<Result<Written, Unsettled>> for ForeignReport {
    ghost from_gives = { λ answer foreign. foreign ≡ foreign_report answer };

    fn from(answer: Result<Written, Unsettled>) -> ForeignReport {
        match answer {
            Ok(written) => ForeignReport {
                refusal: ACCEPTED,
                passes: written.passes,
                length: written.length,
            },
            Err(
                Unsettled::NoPlan {
                    number,
                    place,
                    passes,
                },
            ) => ForeignReport {
                refusal: ForeignRefusal { number, place },
                passes,
                length: 0,
            },
            Err(Unsettled::Refused(refusal)) => ForeignReport {
                refusal: refusal.into(),
                passes: 0,
                length: 0,
            },
        }
    }
}

// Settles a job text over a table and writes its report, as table::report does.
#[unsafe(no_mangle)]
pub extern "C" fn danivomel_report(
    text: &[u8],
    table: &mut [Range],
    scratch: &mut [u64],
    buffer: &mut [u8],
) -> ForeignReport
    ensures value { result ≡ foreign_report (report_text text.now (lows_in table.old) (highs_in table.old) (length scratch.old) buffer.old).answer }
    ensures table_after { lows_in table.new ≡ (report_text text.now (lows_in table.old) (highs_in table.old) (length scratch.old) buffer.old).lows }
    ensures table_after_2 { highs_in table.new ≡ (report_text text.now (lows_in table.old) (highs_in table.old) (length scratch.old) buffer.old).highs }
    ensures buffer_after { buffer.new ≡ (report_text text.now (lows_in table.old) (highs_in table.old) (length scratch.old) buffer.old).buffer }
{
    table::report(text, table, scratch, buffer).into()
}

// What writing answers as C gets it.
impl From<Result<usize, Refusal>> for ForeignWritten {
    ghost from_gives = { λ answer foreign. foreign ≡ foreign_written answer };

    fn from(answer: Result<usize, Refusal>) -> ForeignWritten {
        match answer {
            Ok(bytes) => ForeignWritten {
                refusal: ACCEPTED,
                length: bytes,
            },
            Err(refusal) => ForeignWritten {
                refusal: refusal.into(),
                length: 0,
            },
        }
    }
}

// Writes a job with a table as a job text, as table::write does; the table is only read.
#[unsafe(no_mangle)]
pub extern "C" fn danivomel_write(text: &[u8], table: &[Range], buffer: &mut [u8]) -> ForeignWritten
    ensures value { result ≡ foreign_written (write_text text.now (lows_in table.now) (highs_in table.now) buffer.old).answer }
    ensures buffer_after { buffer.new ≡ (write_text text.now (lows_in table.now) (highs_in table.now) buffer.old).buffer }
{
    table::write(text, table, buffer).into()
}
