// Reads a plate text from standard input and prints the verdict on it: status 0 where there is one, else 1.
#![tactic(auto)]

use plates::check::check_plate;
use std::io;
use std::io::Read;

#[cfg(test)]
mod tests;

// The same steps as in cutplan. No library has them: each public function of one has a contract that pins its result, and none can say what is read and printed.
fn main(rt: HostRuntime) -> io::Result<()> {
    let heap = rt.alloc();
    let mut text = Vec::new(heap);
    rt.stdin().read_to_end(&mut text)?;
    let report = check_plate(heap, text.as_slice())?;
    rt.print(report.printed)?;
    if report.accepted {
        Ok(())
    } else {
        Err(io::Error::other("there is no verdict"))
    }
}
