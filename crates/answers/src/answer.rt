// What a call answers, and how that is printed.
ghost use Rattle.std.specs.Prelude.{◌≡◌, Some};
ghost use Rattle.answers.specs.Answers.{costed, lined};
ghost use Rattle.answers.specs.Texts.{answer_text, draft_text};
ghost use Rattle.answers.specs.Answers as answered;

use crate::grounds::{Ground, Grounded, refused};
use account::Draft;
use composition::NoSuchType;
use cost_rules::Fault;
use std::fmt;

#[derive(Clone, Copy)]
pub enum Answer {
    // done, with nothing to tell
    Done,
    // what a composition costs
    Cost(i64),
    // of a type that has homes
    Line { share: i64, bill: i64 },
    // a type without homes has no line
    Absent,
    Drafted(DraftTold),
    Refused(Ground),
    // a composition has no cost
    Faulty(Fault),
}

// What an accepted draft tells.
#[derive(Clone, Copy)]
pub struct DraftTold {
    pub homes: u8,
    pub lcm: u64,
    pub cost: i64,
    pub rebate: i64,
    pub purse: u32,
}

// A call that has nothing to tell, or its refusal.
pub fn done<E: Grounded>(called: Result<(), E>) -> Answer
    ensures { result ≡ answered.done E.known_by E.beside called }
{
    match called {
        Ok(()) => Answer::Done,
        Err(refusal) => refused(refusal),
    }
}

// The cost of a composition, or its fault.
pub fn cost(priced: Result<i64, Fault>) -> Answer
    ensures { result ≡ costed priced }
{
    match priced {
        Ok(cost) => Answer::Cost(cost),
        Err(fault) => Answer::Faulty(fault),
    }
}

// A line of a draft, if there is one, or a refusal of its type's number.
pub fn line(read: Result<Option<(i64, i64)>, NoSuchType>) -> Answer
    ensures { result ≡ lined read }
{
    match read {
        Ok(Some((share, bill))) => Answer::Line { share, bill },
        Ok(None) => Answer::Absent,
        Err(refusal) => refused(refusal),
    }
}

// A draft that is accepted.
pub fn drafted(draft: &Draft) -> Answer
    ensures { result ≡ answered.drafted draft.now }
{
    Answer::Drafted(DraftTold {
        homes: draft.homes().homes(),
        lcm: draft.lcm(),
        cost: draft.cost(),
        rebate: draft.rebate(),
        purse: draft.purse(),
    })
}

impl fmt::Display for Answer {
    ghost output = { λ answer. Some (answer_text answer) };

    fn fmt<W: fmt::Write>(&self, f: &mut fmt::Formatter<W>) -> fmt::Result {
        match *self {
            Answer::Done => write!(f, "ok"),
            Answer::Cost(cost) => write!(f, "ok {cost}"),
            Answer::Line { share, bill } => write!(f, "ok {share} {bill}"),
            Answer::Absent => write!(f, "absent"),
            Answer::Drafted(told) => write!(f, "{told}"),
            Answer::Refused(ground) => write!(f, "{ground}"),
            Answer::Faulty(Fault { number, rung }) => write!(f, "fault {number} {rung}"),
        }
    }
}

impl fmt::Display for DraftTold {
    ghost output = { λ told. Some (draft_text told) };

    fn fmt<W: fmt::Write>(&self, f: &mut fmt::Formatter<W>) -> fmt::Result {
        let DraftTold {
            homes,
            lcm,
            cost,
            rebate,
            purse,
        } = *self;
        write!(f, "ok {homes} {lcm} {cost} {rebate} {purse}")
    }
}
