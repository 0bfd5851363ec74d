//! Tests of what texts spell: their parts, look-ups in their repositories, and shapes.
#![tactic(auto)]

#[cfg(test)]
mod look_ups;
#[cfg(test)]
mod parts;
#[cfg(test)]
mod shapes;
