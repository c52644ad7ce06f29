// Worked figures of accounts, batteries and periods, as tests: each can be followed by hand, or says how it was found.
// Money is in hundredths of a penny, unless pence are named.
#![tactic(auto)]

#[cfg(test)]
mod battery_tests;
#[cfg(test)]
mod billing_tests;
mod broken;
#[cfg(test)]
mod edge_tests;
#[cfg(test)]
mod fault_tests;
#[cfg(test)]
mod making_tests;
#[cfg(test)]
mod membership_tests;
#[cfg(test)]
mod metering_tests;
#[cfg(test)]
mod period_tests;
#[cfg(test)]
mod periods;
#[cfg(test)]
mod refusal_tests;
#[cfg(test)]
mod subset_tests;
#[cfg(test)]
mod told;
