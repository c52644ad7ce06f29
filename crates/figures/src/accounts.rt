// New accounts, and the homes that have joined them.
ghost use Rattle.figures.specs.Accounts.{NewlyJoined};
ghost use Rattle.figures.specs.WorkedCases.{one_home, three_homes};

use account::Account;

// One home of type 1.
pub(crate) fn one_home() -> Account
    ensures { NewlyJoined one_home result }
{
    let mut account = Account::open_after(0);
    account.join(1).unwrap();
    account
}

// Two homes of type 1 and one of type 2.
pub(crate) fn three_homes() -> Account
    ensures { NewlyJoined three_homes result }
{
    let mut account = one_home();
    account.join(1).unwrap();
    account.join(2).unwrap();
    account
}
