//! Tests of whole reports: scripts with the lines and the status that `ath_session::athena` gives for them.
#![tactic(auto)]

#[cfg(test)]
mod examples;
#[cfg(test)]
mod quantifiers;
#[cfg(test)]
mod reports;
