// Inputs with a listing. A share is over the number behind 'over', the least common multiple of 1 to the number of homes.
// The account is new: what its bills bring in beyond the cost is all that there is in the purse, and never a penny for each home. So every rebate is 0.
use crate::asking::*;
use crate::inputs::*;
use std::test::Fail;

// 300 are exported at 500, and then 495 imported at 3,000: that is 1,335,000 by a thousandth, 13.35 pence. A bill of 14 leaves 65 over.
#[test]
fn the_worked_input_is_listed(rt: HostRuntime) -> Result<(), Fail> {
    check_answer(
        &rt,
        &WORKED,
        "homes 1 over 1\n\
         cost 1335\n\
         type 1 count 1 share 1335 bill 14\n\
         rebate 0 purse 65\n",
    )
}

// 999 exported at 1 for 1,000 bring in 0.999: the cost is -0.999, rounded down to -1. That is under a penny, so that nothing is paid out, and it stays in the purse.
#[test]
fn a_home_that_earns_under_a_penny_is_billed_nothing(rt: HostRuntime) -> Result<(), Fail> {
    check_answer(
        &rt,
        &LESS_THAN_A_PENNY,
        "homes 1 over 1\n\
         cost -1\n\
         type 1 count 1 share -1 bill 0\n\
         rebate 0 purse 1\n",
    )
}

// Each exports 199 at 1,000, which are 1.99 pence. A penny is paid out to each, so that 398 - 200 stay in the purse. There is no line of type 1, which has
// readings but no homes.
#[test]
fn homes_that_earn_are_paid_whole_pence(rt: HostRuntime) -> Result<(), Fail> {
    check_answer(
        &rt,
        &TWO_THAT_EARN,
        "homes 2 over 2\n\
         cost -398\n\
         type 2 count 2 share -398 bill -1\n\
         rebate 0 purse 198\n",
    )
}

// Homes of types 1, 2 and 4 lack 108, 262 and 1,724, at 2,794. Rounded down group by group, the home of type 1 adds 301 to nobody and to that of type 2, which are 3 + 1 of
// its weights of 12, and 302 to any other group: 4 x 301 + 8 x 302 = 3620. The home of type 2 always adds 732. One of type 4 adds 4816 to nobody and to the home of
// type 2, else 4817: 4 x 4816 + 8 x 4817 = 57800. The bills are 4 + 8 + 2 x 49 pence, 333 above the cost.
#[test]
fn a_type_without_homes_between_two_has_no_line(rt: HostRuntime) -> Result<(), Fail> {
    check_answer(
        &rt,
        &A_TYPE_BETWEEN,
        "homes 4 over 12\n\
         cost 10667\n\
         type 1 count 1 share 3620 bill 4\n\
         type 2 count 1 share 8784 bill 8\n\
         type 4 count 2 share 57800 bill 49\n\
         rebate 0 purse 333\n",
    )
}

// By 3,160 and 1,597 in both half-hours, homes of types 2, 3 and 4 cost 1589, 4433 and -406 alone; types 2 and 3 cost 6022, types 2 and 4 816, types 3 and 4 3866.
// All of them import 1,574 and then 72: 5201.36, rounded down. Type 2 has 2 x 1589 + (6022 - 4433) + (816 + 406) + 2 x (5201 - 3866) = 8659, and so on.
// The bills are 15 + 44 - 6 pence, 99 above the cost.
#[test]
fn tariffs_that_are_left_out_hold_over(rt: HostRuntime) -> Result<(), Fail> {
    check_answer(
        &rt,
        &LATER_WITHOUT_TARIFFS,
        "homes 3 over 6\n\
         cost 5201\n\
         type 2 count 1 share 8659 bill 15\n\
         type 3 count 1 share 26341 bill 44\n\
         type 4 count 1 share -3794 bill -6\n\
         rebate 0 purse 99\n",
    )
}

// Exports earn by 500 in the first half-hour, and in the third by 700, which holds over. The home of type 1 exports 300, imports 540 and exports 60: -150 + 1620 - 42 = 1428.
// With one of type 2 that is 500, 190 and 110: -250 + 570 - 77 = 243. With both it exports 700 and 160, and the battery gives all that is lacking: -350 - 112 = -462. One of
// type 2 exports 200 and 50, two export twice as much: -135 and -270. Type 1 has 2 x 1428 + 2 x (243 + 135) + 2 x (-462 + 270) = 3228, type 2
// 2 x -135 + (-270 + 135) + (243 - 1428) + 2 x (-462 - 243) = -3000. The bills are 6 - 2 x 5 = -4 pence, 62 above the cost.
#[test]
fn an_export_tariff_given_later_alone_holds_over(rt: HostRuntime) -> Result<(), Fail> {
    check_answer(
        &rt,
        &LATER_WITH_ONE_TARIFF,
        "homes 3 over 6\n\
         cost -462\n\
         type 1 count 1 share 3228 bill 6\n\
         type 2 count 2 share -3000 bill -5\n\
         rebate 0 purse 62\n",
    )
}

// Nobody can follow these by hand over 32,768 groups of the others. bench/annexe.rs prints them too, and what 16 homes bear must add up to the cost over 720,720:
// -177,898,268 + 4 x 139,260,056 - 6 x 211,097,216 - 5 x 305,970,708 = 720,720 x -3354.
#[test]
fn sixteen_homes_have_a_line_for_each_type(rt: HostRuntime) -> Result<(), Fail> {
    check_answer(
        &rt,
        &SIXTEEN_HOMES,
        "homes 16 over 720720\n\
         cost -3354\n\
         type 1 count 1 share -177898268 bill -2\n\
         type 2 count 4 share 139260056 bill 2\n\
         type 3 count 6 share -211097216 bill -2\n\
         type 4 count 5 share -305970708 bill -4\n\
         rebate 0 purse 754\n",
    )
}

// So many homes have so many times the turbine and the battery, and all is divisible: any group of the worked homes costs 1335 for each of its homes. A share
// is 1335 x 5,354,228,880, and 24 x 65 stay in the purse.
#[test]
fn twenty_four_homes_are_listed(rt: HostRuntime) -> Result<(), Fail> {
    check_with(
        &rt,
        0,
        0x91000018,
        "homes 24 over 5354228880\n\
         cost 32040\n\
         type 1 count 24 share 7147895554800 bill 14\n\
         rebate 0 purse 1560\n",
    )
}
