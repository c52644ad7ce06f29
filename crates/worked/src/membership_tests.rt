// Who joins and leaves, and the numbers of the refusals.
use crate::told::*;
use std::test::Fail;

// A number of no type is told before that the account is full.
#[test]
fn the_24th_home_joins_and_the_25th_is_refused(rt: HostRuntime) -> Result<(), Fail> {
    let mut account = account_with(7, [6, 6, 6, 5])?;
    assert_eq!(rt; join(&mut account, 4), Ok(()));
    assert_eq!(rt; join(&mut account, 1), Err(2));
    assert_eq!(rt; join(&mut account, 4), Err(2));
    assert_eq!(rt; join(&mut account, 5), Err(1));
    assert_eq!(rt; standing_of(&account), ([6, 6, 6, 6], 0, 7));
    Ok(())
}

#[test]
fn no_home_leaves_where_there_is_none_of_its_type(rt: HostRuntime) -> Result<(), Fail> {
    let mut account = account_with(7, [0, 1, 0, 0])?;
    assert_eq!(rt; leave(&mut account, 1), Err(3));
    assert_eq!(rt; leave(&mut account, 2), Ok(()));
    assert_eq!(rt; leave(&mut account, 2), Err(3));
    assert_eq!(rt; standing_of(&account), ([0, 0, 0, 0], 0, 7));
    Ok(())
}

#[test]
fn a_number_of_no_type_is_refused(rt: HostRuntime) -> Result<(), Fail> {
    let mut account = account_with(7, [1, 1, 1, 1])?;
    for number in [0, 5, 255] {
        assert_eq!(rt; join(&mut account, number), Err(1));
        assert_eq!(rt; leave(&mut account, number), Err(1));
    }
    assert_eq!(rt; standing_of(&account), ([1, 1, 1, 1], 0, 7));
    Ok(())
}
