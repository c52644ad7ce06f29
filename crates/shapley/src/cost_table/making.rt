// Taking costs as the table of some homes.
ghost use Rattle.cost_rules.specs.Filled.{FirstOutside};
ghost use Rattle.shapley.specs.TablesMade.{TableMade};

use super::CostTable;
use crate::refusals::TableRefusal;
use composition::Composition;
use cost_rules::price;

impl<'a> CostTable<'a> {
    // The costs of all groups inside some homes, by place, as a draft leaves them: an entry for each, within the limits. What stands behind them is let be.
    pub fn new(homes: Composition, costs: &'a [i64]) -> Result<CostTable<'a>, TableRefusal>
        ensures { TableMade homes.counts costs.now result }
    {
        let Some(entries) = costs.get(..homes.size()) else {
            return Err(TableRefusal::TooShort);
        };
        if let Some(place) = first_outside(entries) {
            return Err(TableRefusal::OutsideLimits(place));
        }
        Ok(CostTable { homes, costs })
    }
}

// The place of the first entry outside the limits, as a listed rule seeks it among its 32-bit costs.
fn first_outside(entries: &[i64]) -> Option<usize>
    ensures { FirstOutside entries.now result }
{
    entries.iter().position(|&cost| price(cost).is_err())
}
