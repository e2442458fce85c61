// Reads an order text from standard input and prints the report on it: status 0 where the text is accepted, else 1.
#![tactic(auto)]

use orders::judge::judge;
use std::io;
use std::io::Read;

#[cfg(test)]
mod tests;

// The same steps as in cutcheck. No library has them: each public function of one has a contract that pins its result, and none can say what is read and printed.
fn main(rt: HostRuntime) -> io::Result<()> {
    let heap = rt.alloc();
    let mut text = Vec::new(heap);
    rt.stdin().read_to_end(&mut text)?;
    let report = judge(heap, text.as_slice())?;
    rt.print(report.printed)?;
    if report.accepted {
        Ok(())
    } else {
        Err(io::Error::other("the text is refused"))
    }
}
