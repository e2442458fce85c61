// What the program prints for a plate text.
ghost use Rattle.std.specs.Prelude.{◌≡◌, IfOk, string_bytes};
ghost use Rattle.plates.specs.Fits.{fitted};
ghost use Rattle.plates.specs.Checked.{verdict_line, refused_line, Told, Outcome, Checked};

use crate::fit::{narrow, panels_of, rows_of, wide};
use crate::plate::Plate;
use crate::read::read_plate;
use crate::unread::Unread;
use inspection::inspect::inspect;
use inspection::verdict::Verdict;
use layout::refusal::Refusal;
use std::alloc::{AllocError, Global};
use text::report::{Report, bad};

// The line of a verdict.
fn verdict_printed(heap: Global, number: u8, row: usize) -> Result<String, AllocError>
    ensures { IfOk result (λ s. string_bytes s ≡ verdict_line number row) }
{
    format!(in heap; "verdict {number} row {row}\n")
}

// The line of a refused inspection.
fn refusal_printed(heap: Global, code: u8) -> Result<String, AllocError>
    ensures { IfOk result (λ s. string_bytes s ≡ refused_line code) }
{
    format!(in heap; "refused {code}\n")
}

// The report on what an inspection answered.
fn told(heap: Global, answer: Result<(Verdict, usize), Refusal>) -> Result<Report, AllocError>
    ensures { IfOk result (λ s. Told answer (string_bytes s.printed) s.accepted) }
{
    match answer {
        Ok((verdict, row)) => {
            let printed = verdict_printed(heap, verdict.code(), row)?;
            Ok(Report::accepting(printed))
        }
        Err(refusal) => {
            let printed = refusal_printed(heap, refusal.code())?;
            Ok(Report::refusing(printed))
        }
    }
}

// The report on a plate that was read.
fn inspected(heap: Global, plate: &Plate) -> Result<Report, AllocError>
    ensures { IfOk result (λ s. Outcome (fitted plate.now.setting plate.now.kinds.items plate.now.rows.items) (string_bytes s.printed) s.accepted) }
{
    let kinds = panels_of(heap, plate.kinds.as_slice())?;
    let rows = rows_of(heap, plate.rows.as_slice())?;
    let setting = plate.setting;
    let answer = inspect(
        wide(setting.length),
        wide(setting.width),
        narrow(setting.saw),
        narrow(setting.stages),
        kinds.as_slice(),
        rows.as_slice(),
    );
    told(heap, answer)
}

// The report on a plate text: the verdict on its plate, or the refusal, or its first line that is not as it must be.
pub fn check_plate(heap: Global, text: &[u8]) -> Result<Report, AllocError>
    ensures { IfOk result (λ s. Checked text.now (string_bytes s.printed) s.accepted) }
{
    match read_plate(heap, text) {
        Ok(plate) => inspected(heap, &plate),
        Err(Unread::Line(line)) => {
            let printed = bad(heap, Refusal::Text, line, 0)?;
            Ok(Report::refusing(printed))
        }
        Err(Unread::Memory) => Err(AllocError),
    }
}
