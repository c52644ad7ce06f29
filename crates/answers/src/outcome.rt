// What comes of a line.
use crate::answer::Answer;
use crate::shown::Shown;

#[derive(Drop)]
pub enum Outcome {
    // it is taken, and there is nothing to answer: a list begins or ends, a period or a rule is noted
    Taken,
    // it is not read, or cannot be acted on as things stand
    Unreadable,
    Answered {
        answer: Answer,
        // the table of a draft, as the call left it
        table: Option<Vec<i64>>,
        // the account behind the call
        account: Option<Shown>,
    },
}
