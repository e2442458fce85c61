// Piles of several shapes: how far they reach, what they refuse, and what they leave in the rows.
ghost use Rattle.std.specs.Prelude.{◌≡◌};

use crate::nothing::Nothing;
use layout::panel::{Kind, Panel};
use layout::refusal::Refusal;
use layout::row::{BLANK, Row};
use layout::task::Task;
use rules::best::{Best, ROWS, WORDS};
use rules::better::BetterOfTwo;
use rules::rule::Rule;
use rules::saw::SawWidth;
use rules::trimming::Trimming;
use rules::turning::Turning;
use std::test::Fail;

const MARK: Row = Row { kind: 9, ..BLANK };

type TwoSaws<R> = SawWidth<SawWidth<R>>;

type FiveSaws<R> = SawWidth<TwoSaws<TwoSaws<R>>>;

type TwoTrims<R> = Trimming<Trimming<R>>;

fn two_saws<R: Rule + Drop>(below: R) -> Result<TwoSaws<R>, Refusal> {
    SawWidth::new(20, SawWidth::new(20, below)?)
}

fn five_saws<R: Rule + Drop>(below: R) -> Result<FiveSaws<R>, Refusal> {
    SawWidth::new(20, two_saws(two_saws(below)?)?)
}

fn two_trims<R: Rule + Drop>(below: R) -> Result<TwoTrims<R>, Refusal> {
    Trimming::new(100, Trimming::new(0, below)?)
}

// Only a pile of so many stages can be brought here.
fn stages_are<R: Rule>(_pile: &R, n: u16)
    requires { R.Rule.stages _pile.now ≡ n }
{}

// Only a pile of this saw width can be brought here.
fn saw_is<R: Rule>(_pile: &R, n: u16)
    requires { R.Rule.saw _pile.now ≡ n }
{}

fn task(length: u16, width: u16, side: u16, wanted: bool) -> Result<Task, Refusal> {
    let panel = Panel {
        length: side,
        width: 50,
        may_turn: false,
    };
    let kind = Kind {
        panel,
        value: 1,
        wanted,
    };
    Task::new(length, width, &[kind])
}

fn best<R: Rule>(pile: &R, task: &Task, rows: &mut [Row]) -> Result<Best, Refusal> {
    let mut work = [7; WORDS];
    pile.best(task, &mut work, rows)
}

#[test]
fn saws_shorten_the_reach(rt: HostRuntime) -> Result<(), Fail> {
    let five = five_saws(Nothing::new(3_200))?;
    let ten = five_saws(five)?;
    assert_eq!(rt; ten.reach(), 3_000);
    let eleven = SawWidth::new(20, ten)?;
    assert_eq!(rt; eleven.reach(), 2_980);
    assert_eq!(rt;
        SawWidth::new(21, Nothing::new(5)).err(),
        Some(Refusal::Setting)
    );
    assert_eq!(rt;
        SawWidth::new(20, Nothing::new(19)).err(),
        Some(Refusal::Reach)
    );
    let whole = SawWidth::new(20, Nothing::new(20))?;
    assert_eq!(rt; whole.reach(), 0);
    Ok(())
}

#[test]
fn trimmings_add_their_stages(rt: HostRuntime) -> Result<(), Fail> {
    assert_eq!(rt;
        Trimming::new(101, Nothing::new(3_200)).err(),
        Some(Refusal::Setting)
    );
    let two = two_trims(Nothing::new(3_100))?;
    let four = two_trims(two)?;
    let five = Trimming::new(50, four)?;
    stages_are(&five, 8);
    saw_is(&five, 0);
    let pile = BetterOfTwo::new(Turning::new(five), Nothing::new(3_000));
    stages_are(&pile, 8);
    assert_eq!(rt; pile.reach(), 3_000);
    Ok(())
}

#[test]
fn a_layer_looks_at_its_own_task(rt: HostRuntime) -> Result<(), Fail> {
    let saw = SawWidth::new(20, Nothing::new(3_200))?;
    let pile = Trimming::new(10, saw)?;
    let mut rows = [MARK; ROWS + 1];
    assert_eq!(rt;
        best(&pile, &task(3_190, 50, 50, true)?, &mut rows),
        Err(Refusal::Reach)
    );
    assert_eq!(rt;
        best(&pile, &task(0, 50, 3_181, false)?, &mut rows),
        Err(Refusal::Reach)
    );
    let mut few = [MARK; ROWS - 1];
    assert_eq!(rt;
        best(&pile, &task(50, 50, 50, true)?, &mut few),
        Err(Refusal::Room)
    );
    assert_eq!(rt; rows[0].kind, 9);
    assert_eq!(rt;
        best(&pile, &task(3_180, 0, 3_180, true)?, &mut rows),
        Ok(Best { rows: 0, worth: 0 })
    );
    assert_eq!(rt;
        (rows[0].kind, rows[4_095].kind, rows[4_096].kind),
        (0, 0, 9)
    );
    Ok(())
}

#[test]
fn either_side_may_be_short(rt: HostRuntime) -> Result<(), Fail> {
    let mut rows = [MARK; ROWS];
    let task = task(3_190, 50, 50, true)?;
    let near = BetterOfTwo::new(Nothing::new(3_200), Nothing::new(3_180));
    assert_eq!(rt; best(&near, &task, &mut rows), Err(Refusal::Reach));
    let near = BetterOfTwo::new(Nothing::new(3_180), Nothing::new(3_200));
    assert_eq!(rt; best(&near, &task, &mut rows), Err(Refusal::Reach));
    assert_eq!(rt; rows[0].kind, 9);
    let mut work = [7; 7_999];
    assert_eq!(rt; near.best(&task, &mut work, &mut rows), Err(Refusal::Room));
    Ok(())
}

#[test]
fn refusals_have_their_numbers(rt: HostRuntime) {
    assert_eq!(rt; Refusal::Room.code(), 5);
    assert_eq!(rt; Refusal::Setting.code(), 6);
    assert_eq!(rt; Refusal::Reach.code(), 17);
}
