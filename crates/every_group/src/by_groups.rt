// The share of a home by all groups of the others.
ghost use Rattle.every_group.specs.ByGroups.{AsDrafted, SharedByGroups};

use crate::newcomer::Newcomer;
use composition::DemandType;
use shapley::CostTable;

// What going through all groups of a home's others came to.
#[derive(Clone, Copy, Debug, PartialEq, Eq)]
pub struct ByGroups {
    // over the least common multiple of 1 to as many homes as there are
    pub share: i64,
    // how many groups there were
    pub groups: u32,
}

// The share of a home of a type, if there is one, by going through every group of the other homes. The work doubles with each home: beside 23 others there are 8,388,608 groups.
pub fn share_by_all_groups(table: &CostTable<'_>, of: DemandType) -> Option<ByGroups>
    ensures from_subsets { SharedByGroups table.now of result }
    ensures as_drafted { AsDrafted table.now of result }
{
    Some(Newcomer::of(table, of)?.share())
}
