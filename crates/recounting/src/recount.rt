// The shares of an input's homes, each counted twice.
ghost use Rattle.std.specs.Prelude.{◌≡◌};
ghost use Rattle.recounting.specs.Counting.{AllCounted, Counted};
ghost use Rattle.recounting.specs.Recounting.{CountedAgain};

use crate::row::Row;
use account::Draft;
use composition::DemandType;
use every_group::{ByGroups, share_by_all_groups};
use listing::{InputRefusal, MOST_COSTS, MOST_WORDS, Request};
use shapley::CostTable;
use std::fmt;

// A draft, and each type's share by all groups, if it has homes.
#[derive(Drop)]
pub struct Recount {
    draft: Draft,
    by_groups: [Option<ByGroups>; 4],
}

// The shares for an input, or why there are none, as the annexe answers it. The room for its words and costs is this call's own.
pub fn count_again(input: &[u8]) -> Result<Recount, InputRefusal>
    ensures { CountedAgain input.now result }
{
    let mut words = [0; MOST_WORDS];
    let mut costs = [0; MOST_COSTS];
    let draft = Request::read(input, &mut words)?.draft(&mut costs)?;
    // a draft leaves an entry within the limits for each group
    let table = CostTable::new(draft.homes(), &costs).unwrap();
    let by_groups = all_by_groups(&table);
    Ok(Recount { draft, by_groups })
}

fn all_by_groups(table: &CostTable<'_>) -> [Option<ByGroups>; 4]
    ensures { AllCounted table.now result }
{
    DemandType::ALL.map(|of| by_groups(table, of))
}

// The public call, with its two promises as one, so that a closure can hand them on.
fn by_groups(table: &CostTable<'_>, of: DemandType) -> Option<ByGroups>
    ensures { Counted table.now of result }
{
    share_by_all_groups(table, of)
}

impl Recount {
    ghost use Rattle.recounting.specs.Texts.{row_of, rows_of};

    fn rows(&self) -> [Row; 4]
        ensures { result ≡ rows_of self.now.draft self.now.by_groups }
    {
        DemandType::ALL.map(|of| self.row(of))
    }

    fn row(&self, of: DemandType) -> Row
        ensures { result ≡ row_of self.now.draft self.now.by_groups of }
    {
        Row {
            of,
            shares: self.shares(of),
        }
    }

    fn shares(&self, of: DemandType) -> Option<(i64, ByGroups)>
        ensures { result ≡ (row_of self.now.draft self.now.by_groups of).shares }
    {
        let (share, _) = self.draft.line_of(of)?;
        let by_groups = self.by_groups[of.position()]?;
        Some((share, by_groups))
    }
}

impl fmt::Display for Recount {
    ghost use Rattle.std.specs.Prelude.{Some};
    ghost use Rattle.recounting.specs.Texts.{recount_text};

    ghost output = { λ r. Some (recount_text r.draft r.by_groups) };

    fn fmt<W: fmt::Write>(&self, f: &mut fmt::Formatter<W>) -> fmt::Result {
        let homes = self.draft.homes().homes();
        let lcm = self.draft.lcm();
        writeln!(f, "homes {homes} over {lcm}")?;
        for row in self.rows() {
            write!(f, "{row}")?;
        }
        Ok(())
    }
}
