//! Tests of values and environments.
#![tactic(auto)]

#[cfg(test)]
mod envs;
#[cfg(test)]
mod equality;
#[cfg(test)]
mod values;
