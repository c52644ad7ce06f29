// Why a group has no cost. Later rules, of any crate, bring faults with numbers of their own, so a fault has its number and is no enum.
ghost use Rattle.std.specs.Prelude.{◌≡◌};

#[derive(Clone, Copy, Debug, PartialEq, Eq)]
pub struct Fault {
    pub number: u8,
    // through how many sums the fault came, 0 for a rule's own, 255 for any more than that
    pub rung: u8,
}

impl Fault {
    ghost use Rattle.cost_rules.specs.Faults.{own, lifted};

    // A rule's own fault.
    pub fn own(number: u8) -> Fault
        ensures { result ≡ own number }
    {
        Fault { number, rung: 0 }
    }

    // The fault as a sum passes it on.
    pub fn lifted(self) -> Fault
        ensures { result ≡ lifted self }
    {
        Fault {
            rung: self.rung.saturating_add(1),
            ..self
        }
    }
}
