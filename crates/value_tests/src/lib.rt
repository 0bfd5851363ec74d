//! Tests of values, and of sources and sinks.
#![tactic(auto)]

#[cfg(test)]
mod scalars;
mod sizes;
#[cfg(test)]
mod streams;
#[cfg(test)]
mod values;
