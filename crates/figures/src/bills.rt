// What bills tell.
ghost use Rattle.std.specs.Prelude.{◌≡◌};
ghost use Rattle.figures.specs.Bills.{bills_in};

use account::Draft;
use composition::DemandType;

#[derive(Clone, Copy)]
pub struct Bills {
    // what shares are fractions over
    pub lcm: u64,
    // what all homes cost together
    pub cost: i64,
    // of a home of each type that has homes: its share, over `lcm`, and its bill in pence
    pub lines: [Option<(i64, i64)>; 4],
    // what each home is given back, in pence
    pub rebate: i64,
    // the purse afterwards
    pub purse: u32,
}

impl Bills {
    // The bills in a draft.
    pub(crate) fn of(draft: &Draft) -> Bills
        ensures { result ≡ bills_in draft.now }
    {
        Bills {
            lcm: draft.lcm(),
            cost: draft.cost(),
            lines: DemandType::ALL.map(|of| draft.line_of(of)),
            rebate: draft.rebate(),
            purse: draft.purse(),
        }
    }
}
