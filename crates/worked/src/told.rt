// The calls under test, with answers that a test can compare and show: refusals by their numbers, since it is the numbers that are known outside.
// Each helper takes what the call takes, an account with a rule and a table, or a box with its costs: a struct of them would be made for one call.
use account::{Account, Draft, DraftRefusal};
use composition::{Composition, DemandType};
use cost_rules::{CostRule, HeadRule, ListedRefusal, ListedRule};
use refusal::Refusal;
use std::process::Abort;
use std::test::Fail;

// An account's homes, its purse and its last bill number.
pub(crate) type Standing = ([u8; 4], u32, u16);

// The number of a refused draft and, where the rule has a fault, the place, the number by which people know the fault, and its rung.
pub(crate) type Ground = (u8, Option<(usize, u8, u8)>);

// Share and bill in pence of a home of a type, if it has homes.
pub(crate) type Line = Option<(i64, i64)>;

// A draft's least common multiple, the cost of all homes, the rebate in pence and the purse; and the lines of the types.
pub(crate) type Bills = ((u64, i64, i64, u32), [Line; 4]);

// An answer, or the number of its refusal.
pub(crate) fn by_number<T, R: Refusal>(answer: Result<T, R>) -> Result<T, u8> {
    answer.map_err(|refusal| refusal.number())
}

pub(crate) fn standing_of(account: &Account) -> Standing {
    (account.homes().counts(), account.purse(), account.last())
}

// A new account after this last bill number, with so many homes of each type.
pub(crate) fn account_with(last: u16, homes: [u8; 4]) -> Result<Account, Fail> {
    let mut account = Account::open_after(last);
    join_all(&mut account, homes)?;
    Ok(account)
}

fn join_all(account: &mut Account, homes: [u8; 4]) -> Result<(), u8> {
    for (of, count) in DemandType::ALL.into_iter().zip(homes) {
        for _ in 0..count {
            join(account, u8::from(of))?;
        }
    }
    Ok(())
}

pub(crate) fn join(account: &mut Account, number: u8) -> Result<(), u8> {
    by_number(account.join(number))
}

pub(crate) fn leave(account: &mut Account, number: u8) -> Result<(), u8> {
    by_number(account.leave(number))
}

// A draft, or the ground on which it is refused and the account that comes back.
pub(crate) fn draft<R: CostRule>(
    account: Account,
    rule: &R,
    table: &mut [i64],
) -> Result<Draft, (Ground, Standing)> {
    account.draft(rule, table).map_err(|refused| (
        ground_of(refused.refusal),
        standing_of(&refused.account),
    ))
}

fn ground_of(refusal: DraftRefusal) -> Ground {
    let number = refusal.number();
    match refusal {
        DraftRefusal::Faulty { place, fault } => (number, Some((place, fault.number, fault.rung))),
        _ => (number, None),
    }
}

pub(crate) fn line(draft: &Draft, number: u8) -> Result<Line, u8> {
    by_number(draft.line(number))
}

pub(crate) fn bills_of(draft: &Draft) -> Result<Bills, u8> {
    let whole = (draft.lcm(), draft.cost(), draft.rebate(), draft.purse());
    let lines = [1, 2, 3, 4].try_map(|number| line(draft, number))?;
    Ok((whole, lines))
}

// A draft by a rule that lists these costs for the groups inside a box, which must be accepted.
pub(crate) fn draft_by_list(
    account: Account,
    largest: [u8; 4],
    costs: &[i32],
    table: &mut [i64],
) -> Result<Draft, Fail> {
    let mut rule = ListedRule::built_in();
    fill(&mut rule, largest, costs)?;
    Ok(draft(account, &rule, table)?)
}

// The bills of a new account, where the costs are those of all groups of its homes.
pub(crate) fn check_bills(
    rt: &impl Abort,
    homes: [u8; 4],
    costs: &[i32],
    table: &mut [i64],
    expected: Bills,
) -> Result<(), Fail> {
    let draft = draft_by_list(account_with(0, homes)?, homes, costs, table)?;
    assert_eq!(rt; bills_of(&draft)?, expected);
    Ok(())
}

// Fills a listed rule, or tells the refusal's number and the place that it names.
pub(crate) fn fill<'a>(
    rule: &mut ListedRule<'a>,
    largest: [u8; 4],
    costs: &'a [i32],
) -> Result<(), (u8, Option<usize>)> {
    rule.fill(largest, costs).map_err(|refusal| match refusal {
        ListedRefusal::OutsideLimits(place) => (refusal.number(), Some(place)),
        _ => (refusal.number(), None),
    })
}

// A rule of fees, or the refusal's number and the number of the type that it names.
pub(crate) fn head(fees: [i32; 4]) -> Result<HeadRule, (u8, u8)> {
    HeadRule::new(fees).map_err(|refusal| (refusal.number(), u8::from(refusal.of)))
}

// What a rule answers for a group: its cost, or the number of its fault.
pub(crate) fn cost_by<R: CostRule>(rule: &R, counts: [u8; 4]) -> Result<i64, u8> {
    let group = by_number(Composition::new(counts))?;
    rule.cost(&group).map_err(|fault| fault.number)
}
