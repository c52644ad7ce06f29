// Opening an account, and what an open one tells.
ghost use Rattle.std.specs.Prelude.{◌≡◌};
ghost use Rattle.account.specs.Calls.{Opened};
ghost use Rattle.account.specs.Promise.{Promise};
ghost use Rattle.account.specs.Terms.{today};

use super::Account;
use composition::Composition;

impl Account {
    // A new account whose last bill has this number: no homes, and nothing in the purse. Whatever calls it goes through,
    // the promise holds: shares are Shapley values, and posted bills are the posted costs and the purse.
    pub fn open_after(last: u16) -> Account
        ensures opened { Opened last result }
        ensures promise { Promise today last }
    {
        Account {
            homes: Composition::empty(),
            purse: 0,
            last,
        }
    }

    // The homes, by type and in all.
    pub fn homes(&self) -> Composition
        ensures { result ≡ self.now.homes }
    {
        self.homes
    }

    // The purse, in hundredths of a penny.
    pub fn purse(&self) -> u32
        ensures { result ≡ self.now.purse }
    {
        self.purse
    }

    // The number of the last bill.
    pub fn last(&self) -> u16
        ensures { result ≡ self.now.last }
    {
        self.last
    }
}
