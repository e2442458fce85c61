// The two named sets of cutting patterns, and the pattern that each names. The functions here answer nothing: each stands for the theorem in its contract.
#![tactic(auto)]

ghost use Rattle.rules.specs.Rules.{RuleLaws};
ghost use Rattle.patterns.specs.Examples.{WorkedCases};
ghost use Rattle.patterns.specs.Named.{two_staged_pattern, three_staged_pattern};
ghost use Rattle.patterns.specs.Patterns.{TwoStagedIsNamed, ThreeStagedIsNamed, EmptyWithoutNumbers};
ghost use Rattle.patterns.specs.Recursions.{TwoStagedRecursionsHold, ThreeStagedRecursionsHold};
ghost use Rattle.patterns.specs.Sets.{TwoStagedSet, ThreeStagedSet};
ghost use Rattle.patterns.specs.Strips.{by_value};

// A kind in one of its two positions, with its sizes along and across the plate. The turn is a number, since it is compared with and copied to that
// field of a row, which callers may fill with any number.
#[derive(Clone, Copy, Debug, PartialEq, Eq, Default)]
pub struct Oriented {
    pub kind: u8,
    pub turned: u8,
    pub along: u16,
    pub across: u16,
    pub value: u32,
}

// Two-staged general is a cutting rule, with the reach 3,200, three stages and the saw width 0.
pub fn two_staged_is_lawful()
    ensures { RuleLaws TwoStagedSet (two_staged_pattern by_value) 3200 3 0 }
{}

// Three-staged homogenous is a cutting rule, with the same numbers.
pub fn three_staged_is_lawful()
    ensures { RuleLaws ThreeStagedSet (three_staged_pattern by_value) 3200 3 0 }
{}

// The two-staged pattern is the one of the rules: first sequences of greatest worth, laid without gaps. No other list is.
pub fn two_staged_is_named()
    ensures { TwoStagedIsNamed }
{}

// The three-staged pattern likewise, at the lowest dividing position of greatest worth.
pub fn three_staged_is_named()
    ensures { ThreeStagedIsNamed }
{}

// Where no number counts, both patterns are empty: no kinds, none wanted, or a plate too small for all.
pub fn patterns_are_empty_without_numbers()
    ensures { EmptyWithoutNumbers }
{}

// The published recursions of the two-staged pattern give its worth.
pub fn two_staged_recursions()
    ensures { TwoStagedRecursionsHold }
{}

// The published recursions of the three-staged pattern give its worth and its dividing position.
pub fn three_staged_recursions()
    ensures { ThreeStagedRecursionsHold }
{}

// The worked plates come out as they should.
pub fn worked_cases()
    ensures { WorkedCases }
{}
