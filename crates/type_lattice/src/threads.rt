//! Types may be shared among threads.

use crate::class_tree::ClassTree;
use crate::types::{HType, IntPart, Leaf, ObjPart, Short, StrPart};

fn crosses<T: Send + Sync>(_value: &T) {}

/// Each type of this crate may be handed to a thread and be shared among threads: the bounds of the calls here
/// are proved for each.
pub fn types_cross_threads(tree: &ClassTree, short: &Short) {
    crosses(tree);
    crosses(short);
    crosses(&IntPart::No);
    crosses(&StrPart::No);
    crosses(&ObjPart::No);
    crosses(&Leaf::NEVER);
    crosses(&HType::NEVER);
}
