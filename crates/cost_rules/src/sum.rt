// The sum of any two rules, of sums too.
ghost use Rattle.std.specs.Prelude.{◌≡◌, ◌+ℤ◌};
ghost use Rattle.cost_rules.specs.Limits.{Within};
ghost use Rattle.cost_rules.specs.Prices.{priced};
ghost use Rattle.cost_rules.specs.Owed.{sum_free, sum_limited};
ghost use Rattle.cost_rules.specs.Sums.{sum_of};

use crate::cost_rule::CostRule;
use crate::fault::Fault;
use crate::pricing::price;
use composition::Composition;

#[derive(Clone, Copy, Drop)]
pub struct SumRule<A, B> {
    pub left: A,
    pub right: B,
}

impl<A: CostRule, B: CostRule> CostRule for SumRule<A, B> {
    ghost meaning = { λ s. sum_of (A.CostRule.meaning s.left) (B.CostRule.meaning s.right) };

    ghost free = { λ s. sum_free (A.CostRule.meaning s.left) (B.CostRule.meaning s.right) (A.CostRule.free s.left) (B.CostRule.free s.right) };

    ghost limited = { λ s. sum_limited (A.CostRule.meaning s.left) (B.CostRule.meaning s.right) (A.CostRule.limited s.left) (B.CostRule.limited s.right) };

    fn cost(&self, of: &Composition) -> Result<i64, Fault> {
        let left = self.left.cost(of).map_err(Fault::lifted)?;
        let right = self.right.cost(of).map_err(Fault::lifted)?;
        add(left, right)
    }
}

// The two costs added, or a fault of the sum's own if that lies outside the limits.
fn add(left: i64, right: i64) -> Result<i64, Fault>
    requires left_within { Within left }
    requires right_within { Within right }
    ensures { result ≡ priced (left +ℤ right) }
{
    price(left + right)
}
