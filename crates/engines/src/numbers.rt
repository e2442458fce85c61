// The oriented numbers that the strips of a segment can be made of.
ghost use Rattle.std.specs.Prelude.{◌≡◌, ◌≤◌};
ghost use Rattle.layout.specs.Models.{model};
ghost use Rattle.layout.specs.Tasks.{WithinLimits};
ghost use Rattle.patterns.specs.Numbers.{numbers as numbers_of};
ghost use Rattle.patterns.specs.Strips.{no_longer as not_longer, no_wider as not_wider};
ghost use Rattle.engines.specs.Stock.{Stock};

use crate::counting::{MOST_NUMBERS, counted, fitting};
use arrayvec::ArrayVec;
use layout::task::Task;
use patterns::Oriented;

// Numbers, lowest first, each of which fits this length and width.
#[derive(Drop)]
pub(crate) struct Numbers {
    pub(crate) length: u16,
    pub(crate) width: u16,
    pub(crate) list: ArrayVec<Oriented, MOST_NUMBERS>,
    ghost stock: { Stock length width list.items },
}

impl Numbers {
    // The numbers of a task that count.
    pub(crate) fn of(task: &Task) -> Numbers
        ensures length { result.length ≡ (model task.now).length }
        ensures width { result.width ≡ (model task.now).width }
        ensures list { result.list.items ≡ numbers_of (model task.now) }
        ensures limits { WithinLimits (model task.now) }
    {
        let length = task.length();
        let width = task.width();
        Numbers {
            length,
            width,
            list: counted(task.kinds(), length, width),
        }
    }

    // Those that a segment of this length can hold.
    pub(crate) fn no_longer(&self, length: u16) -> Numbers
        requires { length ≤ self.now.length }
        ensures length { result.length ≡ length }
        ensures width { result.width ≡ self.now.width }
        ensures list { result.list.items ≡ not_longer length self.now.list.items }
    {
        Numbers {
            length,
            width: self.width,
            list: fitting(&self.list, length, self.width),
        }
    }

    // Those with across size at most this.
    pub(crate) fn no_wider(&self, across: u16) -> ArrayVec<Oriented, MOST_NUMBERS>
        ensures { result.items ≡ not_wider across self.now.list.items }
    {
        fitting(&self.list, self.length, across)
    }
}
