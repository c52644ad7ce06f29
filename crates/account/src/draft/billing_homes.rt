// Making bills out of a table of costs.
ghost use Rattle.std.specs.Prelude.{◌≡◌, ℕ, ◌*◌, ◌<◌, ◌≤◌, length, pos, slice_index_or};
ghost use Rattle.billing.specs.Billing.{Small};
ghost use Rattle.composition.specs.Counts.{size, total, count};
ghost use Rattle.composition.specs.Types.{position};
ghost use Rattle.cost_rules.specs.Limits.{Within};
ghost use Rattle.shapley.specs.CommonMultiple.{lcm_to};
ghost use Rattle.shapley.specs.CostTables.{costs_by, cost_in};
ghost use Rattle.shapley.specs.Shares.{share};
ghost use Rattle.account.specs.Bills.{Billed};
ghost use Rattle.account.specs.Charges.{Charged, lined, pence_of};
ghost use Rattle.account.specs.Terms.{today};

use super::Draft;
use crate::account::Account;
use billing::Charges;
use composition::DemandType;
use rounding::{Divisor, round_up};
use shapley::{CostTable, lcm_to};

impl Draft {
    // The bills of an account's homes, where the table holds what each composition of them costs.
    pub(crate) fn bill(account: Account, table: &[i64]) -> Draft
        requires some { 0 < total account.homes.counts }
        requires numbers { account.last < today.highest }
        requires long { size account.homes.counts ≤ length table.now }
        requires limits { (p : ℕ) → p < size account.homes.counts → Within (slice_index_or table.now p (pos 0)) }
        ensures { Billed (costs_by account.homes.counts table.now) account result }
    {
        let homes = account.homes();
        let costs = CostTable {
            homes,
            costs: table,
        };
        let lcm = lcm_to(&homes);
        let penny = penny_over(lcm);
        let charges = DemandType::ALL.map(|of| charge_for(&costs, of, penny));
        let cost = cost_of_all(&costs);
        let purse = account.purse();
        let settled = Charges {
            homes,
            pence: charges.map(pence_of),
            cost,
            purse,
        }
        .settle();
        let rebate = Rebate {
            pence: settled.rebate,
        };
        Draft {
            account,
            lcm,
            cost: i64::from(cost),
            rebate: settled.rebate,
            purse: settled.purse,
            lines: charges.map(|charge| line(charge, &rebate)),
        }
    }
}

// A penny, as so many parts of a share.
fn penny_over(lcm: u64) -> Divisor
    requires some { 0 < lcm }
    requires small { lcm ≤ 5354228880 }
    ensures { result.value ≡ 100 * lcm }
{
    Divisor { value: 100 * lcm }
}

// What all homes cost together.
fn cost_of_all(costs: &CostTable<'_>) -> i32
    ensures { result ≡ cost_in costs.now costs.now.homes.counts }
{
    costs.costs[costs.homes.place(&costs.homes)] as i32
}

// What a home of a type is charged.
#[derive(Clone, Copy)]
pub(crate) struct Charge {
    // over the least common multiple
    share: i64,
    // the share rounded up to whole pence
    pence: i32,
}

// The charge to a home of a type, if there is one, where a penny is so many parts of a share.
fn charge_for(costs: &CostTable<'_>, of: DemandType, penny: Divisor) -> Option<Charge>
    requires { penny.value ≡ 100 * lcm_to (total costs.now.homes.counts) }
    ensures { Charged (count (position of) costs.now.homes.counts) (share costs.now.homes.counts (position of) (cost_in costs.now)) penny.value result }
{
    let share = costs.share(of)?;
    let pence = round_up(share, penny) as i32;
    Some(Charge { share, pence })
}

// The pence charged to each home of a type; without homes they count for none.
fn pence_of(charge: Option<Charge>) -> i32
    ensures { result ≡ pence_of charge }
{
    charge.map_or(0, |charge| charge.pence)
}

// What every home is given back, in whole pence: so little that a bill less of it is still a number of 64 bits.
#[derive(Clone, Copy)]
struct Rebate {
    pence: i64,
    ghost small: { Small pence },
}

// The line for a charge: the share, and the bill after the rebate.
fn line(charge: Option<Charge>, rebate: &Rebate) -> Option<(i64, i64)>
    ensures { result ≡ lined charge rebate.now.pence }
{
    let charge = charge?;
    Some((charge.share, i64::from(charge.pence) - rebate.pence))
}
