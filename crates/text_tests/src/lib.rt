//! Tests of the instruction table, and of tokens.
#![tactic(auto)]

#[cfg(test)]
mod instructions;
#[cfg(test)]
mod tokens;
