use hack_values::{NoMemory, Text};

/// What a check of linking finds.
#[derive(Clone, Copy, Debug, PartialEq, Eq)]
pub enum LinkKind {
    DuplicateName,
    UnknownName,
    /// A class descends from itself.
    ClassCycle,
    /// There are too many classes on a chain of parents.
    ClassTooDeep,
    /// A property has the name of an earlier one of its class or of an ancestor.
    DuplicateProperty,
    /// A call's count isn't that of the parameters of what it calls.
    WrongArity,
    UnknownLabel,
    DuplicateLabel,
    OverLimit,
}

/// A check of linking that fails.
#[derive(Debug, Drop)]
pub struct LinkFault {
    pub kind: LinkKind,
    /// The name of the function or class, or of a method behind its class and `::`; empty for the whole repository.
    pub owner: Text,
    /// The offending name, of a local with its dollar sign.
    pub name: Text,
    /// The number counted, where a limit is passed or a count is wrong; else 0.
    pub found: u64,
}

/// Why parts don't link.
#[derive(Debug, Drop)]
pub enum LinkError {
    Fault(LinkFault),
    NoMemory,
}

impl From<NoMemory> for LinkError {
    ghost use Rattle.std.specs.Prelude.{◌≡◌};
    ghost use Rattle.hhbc_repo.specs.declared.link_fault.LinkError.TheVariants.{NoMemory as WantOfMemory};

    ghost from_gives = { λ _ e. e ≡ WantOfMemory };

    fn from(_want: NoMemory) -> LinkError {
        LinkError::NoMemory
    }
}
