// Shares by all groups, as tests: beside those by counts in every community of at most six homes, and out of a table of 24; costs that make no table; and what the program recount
// prints.
// Money is in hundredths of a penny.
#![tactic(auto)]

#[cfg(test)]
mod community_tests;
#[cfg(test)]
mod table_tests;
#[cfg(test)]
mod text_tests;
