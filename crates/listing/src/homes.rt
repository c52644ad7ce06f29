// The homes that an input names.
ghost use Rattle.listing.specs.Taking.{CountRead, JoinedAll, OpenedFor};

use account::Account;
use composition::DemandType;
use period::{field, field_value, kind};

// The kind of a word that says how many homes there are.
const HOMES_KIND: u32 = 9;

// An account joined by the homes that four words name, one word for each type; none if these do not name at most 24 homes.
pub(crate) fn open_for(words: [u32; 4]) -> Option<Account>
    ensures { OpenedFor words result }
{
    let mut account = Account::open_after(0);
    for of in DemandType::ALL {
        join_all(&mut account, of, words[of.position()])?;
    }
    Some(account)
}

// All homes of a type join that a word says there are, if it says so and there is room for them.
fn join_all(account: &mut Account, of: DemandType, word: u32) -> Option<()>
    ensures { JoinedAll account.old of word result account.new }
{
    for _ in 0..count_in(word, of)? {
        account.join(u8::from(of)).ok()?;
    }
    Some(())
}

// How many homes of a type a word says there are; none if it does not say that.
fn count_in(word: u32, of: DemandType) -> Option<u32>
    ensures { CountRead of word result }
{
    let says = kind(word) == HOMES_KIND && field(word) == u32::from(u8::from(of));
    says.then_some(field_value(word))
}
