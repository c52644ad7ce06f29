// An open account. It comes only from opening one, from a draft that is posted or withdrawn, or back from a refused draft.
use composition::Composition;

mod drafting;
mod filling;
mod membership;
mod opening;

#[derive(Drop)]
pub struct Account {
    homes: Composition,
    // what earlier bills brought in beyond the costs, in hundredths of a penny
    purse: u32,
    // the number of the last bill; the next draft that is posted has the number after it
    last: u16,
}
