// The rules that homes are billed by.
ghost use Rattle.cost_rules.specs.Filled.{Holds};
ghost use Rattle.figures.specs.Workings.{IsList};

use cost_rules::ListedRule;

// A rule that lists the costs of all groups inside a box.
pub(crate) fn list<'a>(largest: [u8; 4], costs: &'a [i32]) -> ListedRule<'a>
    requires { IsList largest costs.now }
    ensures { Holds result largest costs.now }
{
    let mut rule = ListedRule::built_in();
    rule.fill(largest, costs).unwrap();
    rule
}
