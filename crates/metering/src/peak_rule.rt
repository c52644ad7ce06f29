// The rule by which a group pays for its highest half-hour.
ghost use Rattle.metering.specs.Filled.{PeakFilled, PeakBuiltIn};
ghost use Rattle.metering.specs.Promise.{PeakPromise};

use crate::metered_rule::MeteredRule;
use crate::peak_tally::PeakTally;
use crate::price::Price;
use crate::refusals::PriceOutside;
use cost_rules::CostRule;
use period::Period;

pub type PeakRule<'a> = MeteredRule<'a, PeakTally>;

impl<'a> PeakRule<'a> {
    // The rule to begin with: the built-in period at the price 0.
    pub fn built_in() -> PeakRule<'a>
        ensures holds { PeakBuiltIn result }
        ensures promise { PeakPromise result.period.words.now result.tally.price.value (⟦<PeakRule<'a> as CostRule>⟧.meaning result) }
    {
        PeakRule {
            period: Period::built_in(),
            tally: PeakTally {
                price: Price { value: 0 },
            },
        }
    }

    // Makes this the rule on a period at a price, or refuses and leaves it as it was. Either way it promises that its costs are those of the highest
    // half-hour that its period's words write down.
    pub fn fill(&mut self, period: Period<'a>, price: i64) -> Result<(), PriceOutside>
        ensures filled { PeakFilled period.entry price self.old result self.new }
        ensures promise { PeakPromise self.new.period.words.now self.new.tally.price.value (⟦<PeakRule<'a> as CostRule>⟧.meaning self.new) }
    {
        let price = Price::try_from(price)?;
        *self = PeakRule {
            period,
            tally: PeakTally { price },
        };
        Ok(())
    }
}
