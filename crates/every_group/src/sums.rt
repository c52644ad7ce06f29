// What going through groups came to, added up.
ghost use Rattle.std.specs.Prelude.{◌≡◌, ◌+◌, ◌+ℤ◌};
ghost use Rattle.every_group.specs.Going.{Small};

#[derive(Clone, Copy)]
pub(crate) struct Sums {
    pub(crate) groups: u32,
    // in how many orders of all homes the newcomer comes right behind one of these groups
    pub(crate) orders: u128,
    // what it adds in all these orders
    pub(crate) added: i128,
}

impl Sums {
    // What some groups came to, and some others.
    pub(crate) fn plus(self, other: Sums) -> Sums
        requires these { Small self }
        requires those { Small other }
        ensures groups { result.groups ≡ self.groups + other.groups }
        ensures orders { result.orders ≡ self.orders + other.orders }
        ensures added { result.added ≡ self.added +ℤ other.added }
    {
        Sums {
            groups: self.groups + other.groups,
            orders: self.orders + other.orders,
            added: self.added + other.added,
        }
    }
}
