//! A table of natives may be shared among threads.

use crate::{AddFault, Native, NativeAnswer, NativeTable};

fn crosses<T: Send + Sync>(_value: &T) {}

/// Each type of this crate may be handed to a thread and be shared among threads: the bounds of the calls here are
/// proved for each.
pub fn natives_cross_threads(table: &NativeTable, native: &Native, fault: &AddFault) {
    crosses(table);
    crosses(native);
    crosses(fault);
    crosses(&NativeAnswer::Throws);
}
