// Every home's share once more, from the definition: a plain sum over all subsets of the other homes. Sums wrap, and indices are cut down, since a
// test is proved not to overflow either: no number here comes near that.
use crate::told::*;
use account::{Account, Draft};
use std::process::Abort;
use std::test::Fail;

// In how many orders so many homes can arrive.
const ORDERS: [i128; 7] = [1, 1, 2, 6, 24, 120, 720];

// A number below 64 stands for a subset of six homes, a bit for each home.
const BITS: [usize; 7] = [1, 2, 4, 8, 16, 32, 64];

// What up to three homes of each type cost: numbers within 32,768 of 0, as good as drawn by lot.
fn costs_by_lot(seed: u32) -> [i32; 256] {
    let mut costs = [0i32; 256];
    let mut drawn = seed;
    for cost in &mut costs[1..] {
        drawn = drawn.wrapping_mul(1_664_525).wrapping_add(1_013_904_223);
        *cost = (drawn >> 16) as i32 - 32_768;
    }
    costs
}

// Six homes or fewer, each by the number of its type, as `join` and `line` take it; and what groups of them cost.
#[derive(Clone, Copy)]
struct Street<'a> {
    homes: &'a [u8],
    costs: &'a [i32; 256],
}

impl Street<'_> {
    // How many homes a subset has, and what it costs. Four groups differ only in the homes of type 1, sixteen only in those
    // of types 1 and 2, and so on: each home moves its group on by a step of 1, 4, 16 or 64 places.
    fn cost_of(&self, subset: usize) -> (usize, i128) {
        let mut size = 0usize;
        let mut place = 0usize;
        for (number, bit) in self.homes.iter().zip(BITS) {
            if subset & bit != 0 {
                let step = match number {
                    1 => 1,
                    2 => 4,
                    3 => 16,
                    _ => 64,
                };
                size = size.wrapping_add(1);
                place = place.wrapping_add(step);
            }
        }
        (size, i128::from(self.costs[place % 256]))
    }

    // What a home adds to a subset of the others, for each order of all homes in which it arrives right behind that subset.
    fn added_behind(&self, subset: usize, bit: usize) -> i128 {
        let (before, without) = self.cost_of(subset);
        let (_, with) = self.cost_of(subset | bit);
        let behind = self.homes.len().wrapping_sub(1).wrapping_sub(before);
        let orders = ORDERS[before % 7].wrapping_mul(ORDERS[behind % 7]);
        orders.wrapping_mul(with.wrapping_sub(without))
    }

    fn added_in_all_orders(&self, bit: usize) -> i128 {
        (0..BITS[self.homes.len() % 7])
            .filter(|subset| subset & bit == 0)
            .map(|subset| self.added_behind(subset, bit))
            .fold(0, i128::wrapping_add)
    }

    // The bills of an account with these homes.
    fn draft(&self) -> Result<Draft, Fail> {
        let Street { homes, costs } = *self;
        let mut account = Account::open_after(0);
        for &number in homes {
            join(&mut account, number)?;
        }
        draft_by_list(account, [3, 3, 3, 3], costs, &mut [0; 64])
    }

    // Shares are over the least common multiple, and the sums over the number of all orders.
    fn check_share(
        &self,
        rt: &impl Abort,
        number: u8,
        bit: usize,
        draft: &Draft,
    ) -> Result<(), Fail> {
        let (share, _) = line(draft, number)?.ok_or_else(|| Fail::new("a home has no line"))?;
        let orders = ORDERS[self.homes.len() % 7];
        assert_eq!(rt;
            orders.wrapping_mul(i128::from(share)),
            i128::from(draft.lcm()).wrapping_mul(self.added_in_all_orders(bit))
        );
        Ok(())
    }
}

fn check_shares(rt: &impl Abort, homes: &[u8], seed: u32) -> Result<(), Fail> {
    let costs = costs_by_lot(seed);
    let street = Street {
        homes,
        costs: &costs,
    };
    let draft = street.draft()?;
    for (number, bit) in homes.iter().zip(BITS) {
        street.check_share(rt, *number, bit, &draft)?;
    }
    Ok(())
}

#[test]
fn shares_are_what_homes_add_on_average_over_all_orders(rt: HostRuntime) -> Result<(), Fail> {
    for seed in 0..10u32 {
        check_shares(&rt, &[1, 2], seed)?;
        check_shares(&rt, &[3, 3], seed)?;
        check_shares(&rt, &[1, 4, 1], seed)?;
        check_shares(&rt, &[1, 2, 3, 4], seed)?;
        check_shares(&rt, &[4, 2, 4, 2, 4], seed)?;
        check_shares(&rt, &[1, 1, 1, 2, 2, 2], seed)?;
        check_shares(&rt, &[4, 3, 3, 1, 2, 4], seed)?;
    }
    Ok(())
}
