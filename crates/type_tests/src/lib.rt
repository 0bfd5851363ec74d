//! Tests of types, and of membership in them.
#![tactic(auto)]

#[cfg(test)]
mod lattice;
#[cfg(test)]
mod membership;
