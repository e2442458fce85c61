// The chooser on small examples.
use crate::{Candidate, choose, greatest_worth};
use std::test::Fail;

fn candidate(size: usize, worth: u64) -> Candidate<u64> {
    Candidate { size, worth }
}

// Whether one candidate is refused, with a table that has places enough.
fn refused(size: usize, worth: u64, capacity: usize) -> bool {
    let mut table = [0; 3202];
    greatest_worth(&[candidate(size, worth)], capacity, &mut table).is_none()
}

#[test]
fn first_of_equals(rt: HostRuntime) -> Result<(), Fail> {
    let candidates = [candidate(100, 2), candidate(50, 1)];
    let mut table = [7; 151];
    let mut order = [9; 64];
    assert_eq!(rt; greatest_worth(&candidates, 99, &mut table), Some(1));
    let chosen = choose(&candidates, 150, &mut table, &mut order).ok_or("refused")?;
    assert_eq!(rt; chosen.count, 2);
    assert_eq!(rt; chosen.worth, 3);
    assert!(rt; order[..3] == [0, 1, 9]);
    Ok(())
}

#[test]
fn on_the_edges_of_the_limits(rt: HostRuntime) {
    assert!(rt; refused(49, 1, 100) && !refused(50, 1, 100));
    assert!(rt; refused(50, 0, 100) && refused(50, 64_000_001, 100));
    assert!(rt; !refused(50, 64_000_000, 3200) && refused(50, 1, 3201));
}

#[test]
fn too_few_places(rt: HostRuntime) {
    let candidates = [candidate(50, 1)];
    assert!(rt; greatest_worth(&candidates, 100, &mut [0; 100]).is_none());
    assert!(rt; choose(&candidates, 100, &mut [0; 101], &mut [0; 63]).is_none());
}
