// Plates on their edges.
use crate::inspect::inspect;
use crate::pinwheel::pinwheel;
use crate::verdict::Verdict;
use layout::panel::Panel;
use layout::refusal::Refusal;
use layout::row::{BLANK, Row};

const FLAT: Panel = Panel {
    length: 100,
    width: 50,
    may_turn: false,
};

const TURNABLE: Panel = Panel {
    may_turn: true,
    ..FLAT
};

fn at(x: u16) -> Row {
    Row { x, ..BLANK }
}

#[test]
fn verdicts_are_known_by_numbers(rt: HostRuntime) {
    assert_eq!(rt; Verdict::Accepted.code(), 0);
    assert_eq!(rt; Verdict::FaultyRow.code(), 21);
    assert_eq!(rt; Verdict::NotApart.code(), 22);
}

#[test]
fn saw_cuts_reach_past_the_edges(rt: HostRuntime) {
    assert_eq!(rt;
        inspect(205, 50, 3, 1, &[FLAT], &[at(0), at(103)]),
        Ok((Verdict::Accepted, 0))
    );
    assert_eq!(rt;
        inspect(105, 50, 3, 1, &[FLAT], &[at(2)]),
        Ok((Verdict::Accepted, 0))
    );
    assert_eq!(rt;
        inspect(202, 50, 3, 7, &[FLAT], &[at(0), at(102)]),
        Ok((Verdict::NotApart, 0))
    );
}

#[test]
fn pinwheel_stays_whole(rt: HostRuntime) {
    let (kinds, rows) = pinwheel();
    for stages in 1..8u8 {
        assert_eq!(rt;
            inspect(150, 150, 0, stages, &kinds, &rows),
            Ok((Verdict::NotApart, 0))
        );
    }
}

#[test]
fn first_faulty_row_counts(rt: HostRuntime) {
    let twice = Row { turned: 2, ..BLANK };
    let unknown = Row { kind: 1, ..BLANK };
    let spare = Row { spare: 2, ..BLANK };
    assert_eq!(rt;
        inspect(200, 100, 0, 2, &[TURNABLE], &[spare, twice, unknown]),
        Ok((Verdict::FaultyRow, 1))
    );
    assert_eq!(rt;
        inspect(200, 100, 0, 2, &[FLAT], &[Row { turned: 1, ..BLANK }]),
        Ok((Verdict::FaultyRow, 0))
    );
    assert_eq!(rt;
        inspect(200, 100, 0, 2, &[FLAT], &[spare, at(u16::MAX)]),
        Ok((Verdict::FaultyRow, 1))
    );
    assert_eq!(rt;
        inspect(200, 100, 0, 2, &[FLAT], &[spare, spare]),
        Ok((Verdict::NotApart, 0))
    );
    assert_eq!(rt;
        inspect(200, 100, 0, 2, &[FLAT], &[spare]),
        Ok((Verdict::Accepted, 0))
    );
}

#[test]
fn smallest_refusal_comes_first(rt: HostRuntime) {
    let mut kinds = [FLAT; 33];
    assert_eq!(rt; inspect(200, 100, 0, 1, &kinds, &[]), Err(Refusal::TooMany));
    assert_eq!(rt;
        inspect(200, 100, 21, 1, &kinds, &[]),
        Err(Refusal::Setting)
    );
    assert_eq!(rt;
        inspect(200, 100, 0, 8, &kinds, &[BLANK; 4097]),
        Err(Refusal::Room)
    );
    kinds[32].width = 3001;
    assert_eq!(rt;
        inspect(200, 100, 0, 8, &kinds, &[BLANK; 4097]),
        Err(Refusal::Side)
    );
    assert_eq!(rt; Refusal::Side.code(), 1);
    assert_eq!(rt; Refusal::Room.code(), 5);
    assert_eq!(rt; Refusal::Setting.code(), 6);
    assert_eq!(rt; Refusal::TooMany.code(), 11);
}
