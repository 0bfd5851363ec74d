//! What workers share and hand back.

use crate::effects::{Effect, PathWrite};
use crate::facts::Facts;

fn crosses<T: Send + Sync>(_value: &T) {}

/// Facts may be shared among threads, and effects handed from one to another: the bounds of the calls here are proved.
pub fn facts_cross_threads(facts: &Facts, effect: &Effect, write: &PathWrite) {
    crosses(facts);
    crosses(effect);
    crosses(write);
}
