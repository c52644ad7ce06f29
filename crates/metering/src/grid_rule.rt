// The rule by which a group pays what the grid charges it.
ghost use Rattle.std.specs.Prelude.{◌≡◌};
ghost use Rattle.metering.specs.Promise.{GridPromise};

use crate::grid_tally::GridTally;
use crate::metered_rule::MeteredRule;
use cost_rules::CostRule;
use period::Period;

pub type GridRule<'a> = MeteredRule<'a, GridTally>;

impl<'a> GridRule<'a> {
    // The rule on a period. It promises that its costs are those of the half-hours that the period's words write down.
    #[tactic(auto, using(crate::proofs::Promises::grid_promise))]
    pub fn on(period: Period<'a>) -> GridRule<'a>
        ensures holds { result.period ≡ period.entry }
        ensures promise { GridPromise result.period.words.now (⟦<GridRule<'a> as CostRule>⟧.meaning result) }
    {
        GridRule {
            period,
            tally: GridTally,
        }
    }
}
