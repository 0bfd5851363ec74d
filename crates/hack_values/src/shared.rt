//! All values may be read by several threads, and given from one to another.
use crate::{
    Cell, DictVal, Heap, Key, KeysetVal, NoMemory, Object, Seq, Slot, Text, ValueFault, VecVal,
};

// Taken by types that threads may share.
fn is_shared<T: Send + Sync>() {}

/// What holds here is checked when the crate is compiled: each call asks for the bound.
pub fn values_are_shared() {
    is_shared::<Text>();
    is_shared::<Key>();
    is_shared::<Cell>();
    is_shared::<Slot>();
    is_shared::<VecVal>();
    is_shared::<DictVal>();
    is_shared::<KeysetVal>();
    is_shared::<Seq<Cell>>();
    is_shared::<Object>();
    is_shared::<Heap>();
    is_shared::<NoMemory>();
    is_shared::<ValueFault>();
}
