// Places in a text.
ghost use Rattle.std.specs.Prelude.{◌≡◌, ◌+◌, ◌≤◌, length};
ghost use Rattle.text.specs.Places.{line_after, column_after};

// A line and a column, both counted from 1. A byte 10 belongs to the line that it ends.
#[derive(Clone, Copy, Debug, PartialEq, Eq)]
pub struct Place {
    pub line: usize,
    pub column: usize,
}

// How many bytes stand after the last byte 10.
fn bytes_of_line(before: &[u8]) -> usize
    ensures column { 1 + result ≡ column_after before.now }
    ensures within { result ≤ length before.now }
{
    before.iter().rev().take_while(|b| **b != b'\n').count()
}

// The place just past `before`.
pub fn place_after(before: &[u8]) -> Place
    ensures line { result.line ≡ line_after before.now }
    ensures column { result.column ≡ column_after before.now }
{
    Place {
        line: 1 + before.iter().filter(|b| **b == b'\n').count(),
        column: 1 + bytes_of_line(before),
    }
}
