ghost use Rattle.std.specs.Prelude.{◌≡◌, ℕ, List};
ghost use Rattle.hhbc_ops.specs.Names.{first_named};

/// What texts call by a name.
pub(crate) trait Named: Copy {
    ghost spelling: { Self → List ℕ };

    fn name(self) -> &'static str
        ensures { result.now ≡ spelling self };
}

/// The first of these that has the name.
pub(crate) fn first_named<T: Named>(all: &[T], name: &[u8]) -> Option<T>
    ensures { result ≡ first_named T.spelling all.now name.now }
{
    for one in all {
        if one.name().as_bytes() == name {
            return Some(*one);
        }
    }
    None
}
