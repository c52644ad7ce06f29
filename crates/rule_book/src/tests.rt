// Books that a person can follow: what their rules answer, and what is refused.
use crate::book::{MOST_RULES, RuleBook};
use crate::definition::Definition;
use crate::refusals::AddRefusal;
use composition::Composition;
use cost_rules::{CostRule, Fault, HeadRule, SumRule};
use std::alloc::Global;
use std::test::Fail;

// One home of type 1 costs so much, and all others nothing.
fn fee(amount: i32) -> Result<HeadRule, Fail> {
    Ok(HeadRule::new([amount, 0, 0, 0])?)
}

// A fee, and then so many sums, each of which names the rule before it twice.
fn doubled(alloc: Global, amount: i32, sums: usize) -> Result<RuleBook<'static>, Fail> {
    let mut book = RuleBook::new(alloc);
    book.add(Definition::Head(fee(amount)?))?;
    for before in 0..sums {
        book.add(Definition::Sum {
            left: before,
            right: before,
        })?;
    }
    Ok(book)
}

// What a rule answers for one home of type 1, if there is such a rule.
fn answer(book: &RuleBook<'_>, number: usize) -> Result<Option<Result<i64, Fault>>, Fail> {
    let home = Composition::new([1, 0, 0, 0])?;
    Ok(book.rule(number).map(|rule| rule.cost(&home)))
}

// A cost outside the limits, that came through so many sums.
fn outside(rung: u8) -> Option<Result<i64, Fault>> {
    Some(Err(Fault { number: 10, rung }))
}

// 2^300 ways lead from the last sum to the fee.
#[test]
fn a_sum_that_is_shared_is_worked_out_once(rt: HostRuntime) -> Result<(), Fail> {
    let book = doubled(rt.alloc(), 0, 300)?;
    assert_eq!(rt; answer(&book, 300)?, Some(Ok(0)));
    Ok(())
}

// 2^28 is the last power of 2 within the limits. The sum after it has a fault of its own, which each later sum passes on.
#[test]
fn a_fault_rises_a_rung_with_each_sum_up_to_255(rt: HostRuntime) -> Result<(), Fail> {
    let book = doubled(rt.alloc(), 1, 300)?;
    assert_eq!(rt; answer(&book, 0)?, Some(Ok(1)));
    assert_eq!(rt; answer(&book, 28)?, Some(Ok(268_435_456)));
    assert_eq!(rt; answer(&book, 29)?, outside(0));
    assert_eq!(rt; answer(&book, 283)?, outside(254));
    assert_eq!(rt; answer(&book, 284)?, outside(255));
    assert_eq!(rt; answer(&book, 300)?, outside(255));
    assert_eq!(rt; answer(&book, 301)?, None);
    Ok(())
}

#[test]
fn a_sum_of_a_rule_that_is_not_earlier_is_refused(rt: HostRuntime) -> Result<(), Fail> {
    let mut book = doubled(rt.alloc(), 1, 0)?;
    assert_eq!(rt;
        book.add(Definition::Sum { left: 1, right: 0 }),
        Err(AddRefusal::LaterRule)
    );
    assert_eq!(rt;
        book.add(Definition::Sum { left: 0, right: 1 }),
        Err(AddRefusal::LaterRule)
    );
    assert_eq!(rt; book.len(), 1);
    Ok(())
}

// The deepest book there can be is answered, and takes no more.
#[test]
fn a_full_book_refuses_one_more(rt: HostRuntime) -> Result<(), Fail> {
    let mut book = doubled(rt.alloc(), 1, MOST_RULES - 1)?;
    assert_eq!(rt; answer(&book, MOST_RULES - 1)?, outside(255));
    assert_eq!(rt;
        book.add(Definition::Sum { left: 0, right: 0 }),
        Err(AddRefusal::Full)
    );
    assert_eq!(rt;
        book.add(Definition::Sum {
            left: 0,
            right: MOST_RULES
        }),
        Err(AddRefusal::LaterRule)
    );
    assert_eq!(rt; book.len(), MOST_RULES);
    Ok(())
}

// A rule of a book is a rule as any other: 4 by the book, and 7 beside it.
#[test]
fn a_rule_of_a_book_is_a_part_of_a_sum(rt: HostRuntime) -> Result<(), Fail> {
    let book = doubled(rt.alloc(), 1, 2)?;
    let Some(left) = book.rule(2) else {
        return Err(Fail::from("no rule"));
    };
    let sum = SumRule {
        left,
        right: fee(7)?,
    };
    assert_eq!(rt; sum.cost(&Composition::new([1, 0, 0, 0])?), Ok(11));
    Ok(())
}
