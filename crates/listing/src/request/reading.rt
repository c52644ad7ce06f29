// Reading a request off an input.
ghost use Rattle.listing.specs.Requests.{RequestRead};
ghost use Rattle.listing.specs.Taking.{TakenApart};

use super::Request;
use crate::homes::open_for;
use crate::refusals::InputRefusal;
use crate::words::{MOST_WORDS, words_in};
use account::Account;
use period::Period;

impl<'a> Request<'a> {
    // The request in an input. Its words stand in the room, which is lent for as long as the request is there; what is left in it then is not promised.
    pub fn read(input: &[u8], room: &'a mut [u32; MOST_WORDS]) -> Result<Request<'a>, InputRefusal>
        ensures { RequestRead input.now result }
    {
        let Some((account, words)) = taken_apart(input, room) else {
            return Err(InputRefusal::Unreadable);
        };
        let mut period = Period::built_in();
        period.fill(words)?;
        Ok(Request { account, period })
    }
}

// The account for the homes that an input begins with, and the words behind them; none if it does not begin with at most 24 homes.
fn taken_apart<'a>(input: &[u8], room: &'a mut [u32; MOST_WORDS]) -> Option<(Account, &'a [u32])>
    ensures { TakenApart input.now result }
{
    let [one, two, three, four, rest @ ..] = words_in(input, room)? else {
        return None;
    };
    Some((open_for([*one, *two, *three, *four])?, rest))
}
