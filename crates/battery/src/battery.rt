// A battery whose rating is within its limits. Whoever writes one shows that.
ghost use Rattle.std.proofs.Props.{props};
ghost use Rattle.battery.specs.Ratings.{Rated};

use crate::rating::Rating;

mod group;
mod moved;
mod stepping;

#[derive(Clone, Copy)]
pub struct Battery {
    pub rating: Rating,
    ghost rated: { Rated rating } by { Prim.hlevel props },
}
