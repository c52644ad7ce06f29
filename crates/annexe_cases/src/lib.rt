// What inputs are answered with, as tests of `listing::list`, whose answer is what the program annexe prints: each names its input byte by byte, or word by word, and the
// text that is expected. `listing::Request`, for programs that want the table of costs too, and `listing::read_input` have tests of their own.
// Money is in hundredths of a penny, unless pence are named.
#![tactic(auto)]

#[cfg(test)]
mod asking;
#[cfg(test)]
mod fault_tests;
#[cfg(test)]
mod homes_tests;
#[cfg(test)]
mod inputs;
#[cfg(test)]
mod length_tests;
#[cfg(test)]
mod listing_tests;
#[cfg(test)]
mod long_inputs;
#[cfg(test)]
mod period_tests;
#[cfg(test)]
mod reading_tests;
#[cfg(test)]
mod request_tests;
