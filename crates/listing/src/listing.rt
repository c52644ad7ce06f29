// The listing of shares and bills for an input.
ghost use Rattle.listing.specs.Listings.{Listed};

use crate::refusals::InputRefusal;
use crate::request::{MOST_COSTS, Request};
use crate::row::Row;
use crate::words::MOST_WORDS;
use account::Draft;
use composition::DemandType;
use std::fmt;

// A draft, as it is printed.
#[derive(Drop)]
pub struct Listing {
    draft: Draft,
}

// The listing for an input, or why there is none. The room for its words and costs is this call's own, so that memory never lacks.
pub fn list(input: &[u8]) -> Result<Listing, InputRefusal>
    ensures { Listed input.now result }
{
    let mut words = [0; MOST_WORDS];
    let mut costs = [0; MOST_COSTS];
    let draft = Request::read(input, &mut words)?.draft(&mut costs)?;
    Ok(Listing { draft })
}

impl Listing {
    ghost use Rattle.std.specs.Prelude.{◌≡◌};
    ghost use Rattle.listing.specs.Texts.{rows_of};

    fn rows(&self) -> [Row; 4]
        ensures { result ≡ rows_of self.now.draft }
    {
        DemandType::ALL.map(|of| Row::of(&self.draft, of))
    }
}

impl fmt::Display for Listing {
    ghost use Rattle.std.specs.Prelude.{Some};
    ghost use Rattle.listing.specs.Texts.{listing_text};

    ghost output = { λ listing. Some (listing_text listing.draft) };

    fn fmt<W: fmt::Write>(&self, f: &mut fmt::Formatter<W>) -> fmt::Result {
        let homes = self.draft.homes().homes();
        let lcm = self.draft.lcm();
        let cost = self.draft.cost();
        writeln!(f, "homes {homes} over {lcm}\ncost {cost}")?;
        for row in self.rows() {
            write!(f, "{row}")?;
        }
        let rebate = self.draft.rebate();
        let purse = self.draft.purse();
        writeln!(f, "rebate {rebate} purse {purse}")
    }
}
