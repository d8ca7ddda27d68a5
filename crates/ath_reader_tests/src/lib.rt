//! Tests of the whole reader: tables of texts, and what is read of them.
#![tactic(auto)]

#[cfg(test)]
mod levels;
#[cfg(test)]
mod reading;
#[cfg(test)]
mod spellings;
#[cfg(test)]
mod tokens;
#[cfg(test)]
mod words;
