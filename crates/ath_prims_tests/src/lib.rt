//! Tests of the methods on connectives.
#![tactic(auto)]

#[cfg(test)]
mod cases;
#[cfg(test)]
mod methods;
#[cfg(test)]
mod sentences;
