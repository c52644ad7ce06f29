// Drafting bills for a request.
ghost use Rattle.listing.specs.Requests.{RequestDrafted};

use super::Request;
use account::{Draft, DraftRefusal};
use metering::GridRule;

// The most compositions that lie inside 24 homes: 7 x 7 x 7 x 7 inside 6 of each type.
pub const MOST_COSTS: usize = 2_401;

impl Request<'_> {
    // Bills by what the grid charges. The table holds afterwards what the compositions of the homes cost, all of them or those before the first with a fault.
    pub fn draft(self, table: &mut [i64; MOST_COSTS]) -> Result<Draft, DraftRefusal>
        ensures { RequestDrafted self.entry table.old result table.new }
    {
        let rule = GridRule::on(self.period);
        self.account
            .draft(&rule, table)
            .map_err(|refused| refused.refusal)
    }
}
