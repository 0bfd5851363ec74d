//! Tests of natives and of their table.
#![tactic(auto)]

#[cfg(test)]
mod calls;
#[cfg(test)]
mod tables;
