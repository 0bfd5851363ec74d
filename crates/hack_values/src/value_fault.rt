ghost use Rattle.std.specs.Prelude.{◌≡◌};

use crate::NoMemory;
use std::alloc::AllocFailed;

/// Why a container refused a value.
#[derive(Clone, Copy, Debug, PartialEq, Eq)]
pub enum ValueFault {
    /// The container would weigh more than 4,194,304.
    TooLarge,
    /// It would not, but it would be deeper than 64.
    TooDeep,
    NoMemory,
}

impl<T: Drop> From<AllocFailed<T>> for ValueFault {
    ghost use Rattle.hack_values.specs.declared.value_fault.ValueFault.{ValueFault};

    ghost from_gives = { λ _ fault. fault ≡ ValueFault.NoMemory };

    fn from(_refusal: AllocFailed<T>) -> ValueFault {
        ValueFault::NoMemory
    }
}

impl From<NoMemory> for ValueFault {
    ghost use Rattle.hack_values.specs.declared.value_fault.ValueFault.{ValueFault};

    ghost from_gives = { λ _ fault. fault ≡ ValueFault.NoMemory };

    fn from(_refusal: NoMemory) -> ValueFault {
        ValueFault::NoMemory
    }
}

/// The greatest weight of a value.
pub const MAX_WEIGHT: u32 = 4_194_304;

/// The greatest depth of a value.
pub const MAX_DEPTH: u32 = 64;
