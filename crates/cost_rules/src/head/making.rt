// Making a head rule.
ghost use Rattle.cost_rules.specs.Heads.{HeadMade};

use super::HeadRule;
use crate::refusals::FeeOutside;
use composition::DemandType;

// The most that a fee may be, on either side.
const LIMIT: i32 = 1_000_000;

impl HeadRule {
    // The rule with these fees, or a refusal that names the first type whose fee lies outside the limits.
    pub fn new(fees: [i32; 4]) -> Result<HeadRule, FeeOutside>
        ensures { HeadMade fees result }
    {
        for of in DemandType::ALL {
            if !(-LIMIT..=LIMIT).contains(&fees[of.position()]) {
                return Err(FeeOutside { of });
            }
        }
        Ok(HeadRule { fees })
    }
}
