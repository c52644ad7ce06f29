// An account, as a ledger shows it.
ghost use Rattle.std.specs.Prelude.{◌≡◌, Some};
ghost use Rattle.answers.specs.Answers.{shown};
ghost use Rattle.answers.specs.Texts.{shown_text};

use account::Account;
use std::fmt;

#[derive(Clone, Copy)]
pub struct Shown {
    pub counts: [u8; 4],
    pub purse: u32,
    pub last: u16,
}

impl Shown {
    pub fn of(account: &Account) -> Shown
        ensures { result ≡ shown account.now }
    {
        Shown {
            counts: account.homes().counts(),
            purse: account.purse(),
            last: account.last(),
        }
    }
}

impl fmt::Display for Shown {
    ghost output = { λ s. Some (shown_text s) };

    fn fmt<W: fmt::Write>(&self, f: &mut fmt::Formatter<W>) -> fmt::Result {
        let [one, two, three, four] = self.counts;
        write!(f, "account {one} {two} {three} {four}")?;
        let purse = self.purse;
        let last = self.last;
        writeln!(f, " {purse} {last}")
    }
}
