// What a line says.

// A call on an account, or something that the calls need.
#[derive(Drop)]
pub enum Line<'t> {
    // a list of calls begins, on an account opened after a number
    List { name: &'t [u8], last: u16 },
    Period { number: usize, words: Vec<u32> },
    Rule { number: usize, rule: WrittenRule },
    Join(u8),
    Leave(u8),
    Draft { rule: usize, table: Vec<i64> },
    // the line of a type in the draft
    Line(u8),
    Post,
    Withdraw,
    Compose([u8; 4]),
    Make(Making),
    Ask { kind: Kind, of: [u8; 4] },
    Cost { rule: usize, of: [u8; 4] },
    // the list of calls ends
    End,
}

// A rule with a number of its own. Periods and other rules are named by their numbers.
#[derive(Drop)]
pub enum WrittenRule {
    Listed(Listed),
    Head([i32; 4]),
    Sum { left: usize, right: usize },
    Grid { period: usize },
    Peak { period: usize, price: i64 },
}

// Something to be made, and held.
#[derive(Drop)]
pub enum Making {
    Listed(Listed),
    Head([i32; 4]),
    Peak { words: Vec<u32>, price: i64 },
    Check { words: Vec<u32> },
}

// What is held and can be asked for a cost.
#[derive(Clone, Copy, Debug, PartialEq, Eq)]
pub enum Kind {
    Listed,
    Head,
    Peak,
    Check,
}

// The counts of a largest composition, and the costs of all inside it.
#[derive(Drop)]
pub struct Listed {
    pub largest: [u8; 4],
    pub table: Vec<i32>,
}
