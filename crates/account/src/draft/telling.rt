// What a draft tells.
ghost use Rattle.std.specs.Prelude.{◌≡◌};
ghost use Rattle.account.specs.Bills.{line_of};
ghost use Rattle.account.specs.Calls.{LineRead};

use super::Draft;
use composition::{Composition, DemandType, NoSuchType};

impl Draft {
    // Share and bill of a type; none if it has no homes.
    pub fn line_of(&self, of: DemandType) -> Option<(i64, i64)>
        ensures { result ≡ line_of self.now of }
    {
        self.lines[of.position()]
    }

    // The line of the type with this number, as people know it.
    pub fn line(&self, number: u8) -> Result<Option<(i64, i64)>, NoSuchType>
        ensures { LineRead self.now number result }
    {
        let of = DemandType::try_from(number)?;
        Ok(self.line_of(of))
    }

    // The homes that are billed, by type and in all.
    pub fn homes(&self) -> Composition
        ensures { result ≡ self.now.account.homes }
    {
        self.account.homes()
    }

    // The least common multiple that the shares are fractions over.
    pub fn lcm(&self) -> u64
        ensures { result ≡ self.now.lcm }
    {
        self.lcm
    }

    // What all homes cost together, in hundredths of a penny.
    pub fn cost(&self) -> i64
        ensures { result ≡ self.now.cost }
    {
        self.cost
    }

    // What every home is given back, in pence.
    pub fn rebate(&self) -> i64
        ensures { result ≡ self.now.rebate }
    {
        self.rebate
    }

    // The purse once the draft is posted, in hundredths of a penny.
    pub fn purse(&self) -> u32
        ensures { result ≡ self.now.purse }
    {
        self.purse
    }
}
