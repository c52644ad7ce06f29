// What ledgers are answered with, as tests of `replaying::replay`, whose answer is what the program ledger prints: each is a transcript, where that can say it.
#![tactic(auto)]

#[cfg(test)]
mod asking;
#[cfg(test)]
mod held_tests;
#[cfg(test)]
mod input_tests;
#[cfg(test)]
mod noting_tests;
#[cfg(test)]
mod standing_tests;
#[cfg(test)]
mod unreadable_tests;
