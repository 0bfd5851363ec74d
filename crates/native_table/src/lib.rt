//! Natives: functions that bytecode calls and that are written outside of it.
#![tactic(auto)]

mod answer;
mod laws;
mod native;
mod numbers;
mod sizes;
mod strings;
mod table;
mod threads;

pub use answer::NativeAnswer;
pub use laws::native_values_are_typed;
pub use native::Native;
pub use numbers::{native_abs, native_max, native_min};
pub use sizes::native_count;
pub use strings::{native_str_repeat, native_strlen};
pub use table::{AddFault, NativeTable};
pub use threads::natives_cross_threads;
