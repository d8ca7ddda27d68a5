//! Tests of stores and substitution. They stand here, and not in those crates, because a crate that has tests is proved twice:
//! without them, and with them.
#![tactic(auto)]

#[cfg(test)]
mod subst;
#[cfg(test)]
mod terms;
