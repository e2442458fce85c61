// Saw width g: asks below with g added to all sides of plate and kinds, so that each piece brings its saw cut with it.
ghost use Rattle.std.specs.Prelude.{◌≡◌, ◌+◌, ◌-◌, ◌≤◌, min, IfOk};
ghost use Rattle.layout.specs.Refusals.{Answered};
ghost use Rattle.rules.specs.Layers.{SawPatterns, saw_named, SawCause};
ghost use Rattle.std.proofs.Common.{arith};
ghost use Rattle.rules.specs.SawLaws.{saw_laws};

use crate::best::Best;
use crate::rule::{Rule, admit, ask_admitted};
use layout::refusal::Refusal;
use layout::row::Row;
use layout::task::Task;

// The greatest saw width of one layer.
pub const GREATEST_SAW: u16 = 20;

// The constructor lets through only a width within the reach below. No field can state that, since it speaks of the rule below; so the layer means
// the width as far as that reach goes, which is the width itself. That it is at most 20 is known of every such layer.
// Nothing compares layers, so no equality is derived.
#[derive(Drop)]
pub struct SawWidth<R> {
    width: u16,
    below: R,
    ghost small: { width ≤ 20 },
}

impl<R: Rule + Drop> SawWidth<R> {
    // The layer above a rule, which it lets go of where it refuses.
    pub fn new(width: u16, below: R) -> Result<SawWidth<R>, Refusal>
        ensures answer { Answered (SawCause width (R.Rule.reach below)) result }
        ensures layer { IfOk result (λ s. (s.width ≡ width) × (s.below ≡ below) × (width ≤ R.Rule.reach below)) }
    {
        if width > GREATEST_SAW {
            return Err(Refusal::Setting);
        }
        if below.reach() < width {
            return Err(Refusal::Reach);
        }
        Ok(SawWidth { width, below })
    }
}

impl<R: Rule> SawWidth<R> {
    // The width that is added to every side.
    fn added(&self) -> u16
        ensures { result ≡ min self.now.width (R.Rule.reach self.now.below) }
    {
        self.width.min(self.below.reach())
    }
}

impl<R: Rule> Rule for SawWidth<R> {
    ghost patterns = { λ s. SawPatterns (min s.width (R.Rule.reach s.below)) (R.Rule.patterns s.below) };

    ghost named = { λ s. saw_named (min s.width (R.Rule.reach s.below)) (R.Rule.named s.below) };

    ghost reach = { λ s. R.Rule.reach s.below - min s.width (R.Rule.reach s.below) };

    ghost stages = { λ s. R.Rule.stages s.below };

    ghost saw = { λ s. R.Rule.saw s.below + min s.width (R.Rule.reach s.below) };

    ghost lawful = { λ s. saw_laws (min s.width (R.Rule.reach s.below)) (omega arith) (R.Rule.lawful s.below) };

    fn reach(&self) -> u16 {
        self.below.reach() - self.added()
    }

    fn best(&self, task: &Task, work: &mut [u64], rows: &mut [Row]) -> Result<Best, Refusal> {
        admit(self.reach(), task, work.len(), rows.len())?;
        let wider = task.widened(self.added()).unwrap();
        Ok(ask_admitted(&self.below, &wider, work, rows))
    }
}
