// What a program prints.
ghost use Rattle.std.specs.Prelude.{◌≡◌, true, false, IfOk, string_bytes};
ghost use Rattle.layout.specs.Refusals.{code_of};
ghost use Rattle.text.specs.Bad.{bad_line};

use layout::refusal::Refusal;
use std::alloc::{AllocError, Global};

// All bytes to be printed, and whether what was read is accepted: both cases print, and a contract speaks of the two members.
#[derive(Debug, PartialEq, Eq, Drop)]
pub struct Report {
    pub printed: String,
    pub accepted: bool,
}

impl Report {
    // The report on what is accepted.
    pub fn accepting(printed: String) -> Report
        ensures { result ≡ record { printed = printed; accepted = true } }
    {
        Report {
            printed,
            accepted: true,
        }
    }

    // The report on what is refused.
    pub fn refusing(printed: String) -> Report
        ensures { result ≡ record { printed = printed; accepted = false } }
    {
        Report {
            printed,
            accepted: false,
        }
    }
}

// The line `bad CODE line LINE column COLUMN`.
fn bad_code(heap: Global, code: u8, line: usize, column: usize) -> Result<String, AllocError>
    ensures { IfOk result (λ s. string_bytes s ≡ bad_line code line column) }
{
    format!(in heap; "bad {code} line {line} column {column}\n")
}

// The line of a refusal.
pub fn bad(heap: Global, refusal: Refusal, line: usize, column: usize) -> Result<String, AllocError>
    ensures { IfOk result (λ s. string_bytes s ≡ bad_line (code_of refusal) line column) }
{
    bad_code(heap, refusal.code(), line, column)
}
