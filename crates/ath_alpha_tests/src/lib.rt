//! Tests of alpha-equality and sort instances.
#![tactic(auto)]

#[cfg(test)]
mod alpha;
