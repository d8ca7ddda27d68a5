//! Tests of declarations, of values and of the lines that events have.
#![tactic(auto)]

#[cfg(test)]
mod declarations;
#[cfg(test)]
mod lines;
#[cfg(test)]
mod values;
