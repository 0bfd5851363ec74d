//! Tests of least solutions, and of jobs done side by side.
#![tactic(auto)]

#[cfg(test)]
mod jobs;
#[cfg(test)]
mod solutions;
