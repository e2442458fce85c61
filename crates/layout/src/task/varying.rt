// A task compared with a reach, and the tasks that layers ask below with.
ghost use Rattle.std.specs.Prelude.{◌≡◌, map, MatchBool, MatchOption};
ghost use Rattle.layout.specs.Limits.{EachKind, SomeKind};
ghost use Rattle.layout.specs.Tasks.{WithinLimits, WithinReach, BeyondReach, KindWithin, KindBeyond, given};
ghost use Rattle.layout.specs.Variants.{exchanged_panel, widened_panel, with_panel, exchanged_model, widened_model, trimmed_model};
ghost use Rattle.layout.specs.Sums.{stretched_panel};
ghost use Rattle.layout.specs.Models.{model};

use crate::change::Change;
use crate::panel::{GREATEST_SIDE, Kind};
use crate::task::Task;

// The sides of a kind exchanged.
#[derive(Clone, Copy, Debug, PartialEq, Eq)]
struct Exchange;

impl Change<Kind> for Exchange {
    ghost changed = { λ _. with_panel exchanged_panel };

    fn apply(&self, x: Kind) -> Kind {
        let panel = x.panel.exchanged();
        Kind { panel, ..x }
    }
}

// So much added to both sides of a kind.
#[derive(Clone, Copy, Debug, PartialEq, Eq)]
struct Widen(u16);

impl Change<Kind> for Widen {
    ghost changed = { λ w. with_panel (stretched_panel w.0) };

    fn apply(&self, x: Kind) -> Kind {
        let panel = x.panel.stretched(self.0);
        Kind { panel, ..x }
    }
}

impl Task {
    // Whether no side of the plate or of a kind, wanted or not, exceeds the reach.
    pub fn within(&self, reach: u16) -> bool
        ensures { MatchBool result (WithinReach reach (model self.now)) (BeyondReach reach (model self.now)) }
    {
        self.length <= reach
            && self.width <= reach
            && self.kinds().iter().all(|k| k.is_within(reach))
    }

    // The task of a plate with all kinds changed, where that keeps to the limits.
    fn with_kinds<C: Change<Kind>>(&self, length: u16, width: u16, by: &C) -> Task
        requires { WithinLimits (given length width (map (C.Change.changed by.now) (model self.now).kinds)) }
        ensures { model result ≡ given length width (map (C.Change.changed by.now) (model self.now).kinds) }
    {
        Task {
            length,
            width,
            kinds: self.kinds.changed(by),
        }
    }

    // The task of a plate with `by` added to the sides of all kinds, where that keeps to the limits.
    fn with_kinds_widened(&self, by: u16, length: u16, width: u16) -> Task
        requires { WithinLimits (given length width (map (with_panel (widened_panel by)) (model self.now).kinds)) }
        ensures { model result ≡ given length width (map (with_panel (widened_panel by)) (model self.now).kinds) }
    {
        self.with_kinds(length, width, &Widen(by))
    }

    // The task with the sides of the plate and of all kinds exchanged.
    pub fn exchanged(&self) -> Task
        ensures { model result ≡ exchanged_model (model self.now) }
    {
        self.with_kinds(self.width, self.length, &Exchange)
    }

    // The task with a border of breadth `by` taken off the plate; a plate too small for it has no side left.
    pub fn trimmed(&self, by: u16) -> Task
        ensures { model result ≡ trimmed_model by (model self.now) }
    {
        Task {
            length: self.length.saturating_sub(by).saturating_sub(by),
            width: self.width.saturating_sub(by).saturating_sub(by),
            kinds: self.kinds,
        }
    }

    // The task with `by` added to the sides of the plate and of all kinds, or None where that passes the limits of a task.
    pub fn widened(&self, by: u16) -> Option<Task>
        ensures { MatchOption result (WithinLimits (widened_model by (model self.now)) → ⊥) (λ t. model t ≡ widened_model by (model self.now)) }
    {
        let room = GREATEST_SIDE.checked_sub(by)?;
        if !self.within(room) {
            return None;
        }
        Some(self.with_kinds_widened(by, self.length + by, self.width + by))
    }
}
