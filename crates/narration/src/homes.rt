// Homes that join an account.
ghost use Rattle.std.specs.Prelude.{IfOk, Result};
ghost use Rattle.account.specs.Calls.{Joined};
ghost use Rattle.account.specs.Runs.{Been};
ghost use Rattle.account.specs.declared.refusals.JoinRefusal.{JoinRefusal as Refused};
ghost use Rattle.figures.specs.Accounts.{NewlyJoined};
ghost use Rattle.figures.specs.WorkedCases.{three_homes};

use account::Account;
use refusal::Refusal;
use std::io;

// A new account that four homes would join, each by the number of its type, as `join` takes it: the last is of a type that there is not.
pub(crate) fn open_and_join(rt: &impl Print) -> io::Result<Account>
    ensures been { IfOk result (Been 0) }
    ensures joined { IfOk result (NewlyJoined three_homes) }
{
    let mut account = Account::open_after(0);
    println!(rt; "An account is opened. Its last bill has the number 0.")?;
    for number in [1, 1, 2, 5] {
        join(rt, &mut account, number)?;
    }
    show_account(rt, &account)?;
    Ok(account)
}

fn join(rt: &impl Print, account: &mut Account, number: u8) -> io::Result<()>
    ensures { (answer : Result (Unit {0}) Refused) × Joined account.old number answer account.new }
{
    match account.join(number) {
        Ok(()) => println!(rt; "A home of type {number} joins."),
        Err(refusal) => println!(rt;
            "A home of type {number} would join. Refused, number {}: {refusal}.",
            refusal.number()
        ),
    }
}

// Printed here, and not by `Display`: the account is another crate's type, and the words are the story's.
pub(crate) fn show_account(rt: &impl Print, account: &Account) -> io::Result<()> {
    let [one, two, three, four] = account.homes().counts();
    let purse = account.purse();
    let last = account.last();
    println!(rt;
        "  The account has {one}, {two}, {three} and {four} homes of types 1 to 4, {purse} in its purse, and last bill number {last}."
    )
}
