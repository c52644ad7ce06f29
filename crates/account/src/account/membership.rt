// Homes that join and leave. Their types come by number, as people know them: a narrower type would ask more of who calls.
ghost use Rattle.account.specs.Calls.{Joined, Departed};

use super::Account;
use crate::refusals::{JoinRefusal, LeaveRefusal};
use composition::DemandType;

impl Account {
    // One home more of the type with this number.
    pub fn join(&mut self, number: u8) -> Result<(), JoinRefusal>
        ensures { Joined self.old number result self.new }
    {
        let of = DemandType::try_from(number)?;
        self.homes = self.homes.with_one(of)?;
        Ok(())
    }

    // One home fewer of the type with this number.
    pub fn leave(&mut self, number: u8) -> Result<(), LeaveRefusal>
        ensures { Departed self.old number result self.new }
    {
        let of = DemandType::try_from(number)?;
        self.homes = self.homes.without_one(of).ok_or(LeaveRefusal::NoneThere)?;
        Ok(())
    }
}
