// Posting and withdrawing a draft, each of which gives the account back.
ghost use Rattle.account.specs.Calls.{Posted, Withdrawn};

use super::Draft;
use crate::account::Account;

impl Draft {
    // The bills count: the account has the draft's purse, and one bill number more is used.
    pub fn post(self) -> Account
        ensures { Posted self result }
    {
        let Draft { account, purse, .. } = self;
        account.posted(purse)
    }

    // The draft is dropped: the account is as it was.
    pub fn withdraw(self) -> Account
        ensures { Withdrawn self result }
    {
        self.account
    }
}
