// What the two rules mean. A rule with other patterns, or another named pattern, under one of the names could not keep these promises.
ghost use Rattle.patterns.specs.Named.{three_staged_pattern, two_staged_pattern};
ghost use Rattle.patterns.specs.Sets.{ThreeStagedSet, TwoStagedSet};
ghost use Rattle.patterns.specs.Strips.{by_value};
ghost use Rattle.engines.specs.Meaning.{Means};
ghost use Rattle.engines.specs.contracts.two_staged.TwoStagedRule.TheImpl.{ghosts as two_members};
ghost use Rattle.engines.specs.contracts.three_staged.ThreeStagedRule.TheImpl.{ghosts as three_members};

use crate::three_staged::ThreeStaged;
use crate::two_staged::TwoStaged;

impl TwoStaged {
    // The rule means the two-staged set and its named pattern.
    pub fn meaning(&self)
        ensures { Means TwoStagedSet (two_staged_pattern by_value) (two_members.patterns self.now) (two_members.named self.now) (two_members.reach self.now) (two_members.stages self.now) (two_members.saw self.now) }
    {}
}

impl ThreeStaged {
    // The rule means the three-staged set and its named pattern.
    pub fn meaning(&self)
        ensures { Means ThreeStagedSet (three_staged_pattern by_value) (three_members.patterns self.now) (three_members.named self.now) (three_members.reach self.now) (three_members.stages self.now) (three_members.saw self.now) }
    {}
}
