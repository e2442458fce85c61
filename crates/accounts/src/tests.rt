// Accounts on their edges.
use crate::account::Account;
use layout::refusal::Refusal;
use layout::row::{BLANK, Row};
use std::test::Fail;

fn opened(ordered: &[u16]) -> Result<Account, Fail> {
    Account::new(ordered).map_err(|_| Fail::new("the account was refused"))
}

#[test]
fn counts_up_to_the_order(rt: HostRuntime) -> Result<(), Fail> {
    let mut account = opened(&[4, 1])?;
    let other = Row { kind: 1, ..BLANK };
    let rows = [
        BLANK,
        Row { spare: 1, ..other },
        Row { spare: 2, ..other },
        BLANK,
    ];
    assert_eq!(rt; account.count(&rows, 3), Err(Refusal::PastOrder));
    assert_eq!(rt; account.count(&rows, 2), Ok(()));
    assert!(rt; !account.met());
    assert_eq!(rt; account.count(&[BLANK], 1), Err(Refusal::PastOrder));
    assert_eq!(rt; account.count(&[other], 1), Ok(()));
    assert!(rt; account.met());
    Ok(())
}

#[test]
fn unknown_kinds_are_looked_for_everywhere(rt: HostRuntime) -> Result<(), Fail> {
    let mut account = opened(&[10_000])?;
    let mut rows = [Row { spare: 1, ..BLANK }; 5000];
    assert_eq!(rt; account.count(&rows, 1), Err(Refusal::Room));
    rows[4999].kind = 1;
    assert_eq!(rt; account.count(&rows, 1), Err(Refusal::UnknownKind));
    assert_eq!(rt; account.count(&rows, 0), Err(Refusal::Quantity));
    assert!(rt; Account::new(&[0]).is_err() && Account::new(&[1; 33]).is_err());
    Ok(())
}

#[test]
fn refusals_have_their_numbers(rt: HostRuntime) {
    assert_eq!(rt; Refusal::Quantity.code(), 3);
    assert_eq!(rt; Refusal::UnknownKind.code(), 4);
    assert_eq!(rt; Refusal::Room.code(), 5);
    assert_eq!(rt; Refusal::PastOrder.code(), 18);
}
