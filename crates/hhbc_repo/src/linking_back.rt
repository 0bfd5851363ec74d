//! The law of what linked parts link to, the contract of a function that does nothing.

ghost use Rattle.std.specs.Prelude.{◌≡◌, true, []};
ghost use Rattle.hhbc_repo.specs.Fits.{parts_fit};
ghost use Rattle.hhbc_repo.specs.LinkFaults.{Whole, faults};
ghost use Rattle.hhbc_repo.specs.Resolved.{resolved};
ghost use Rattle.hhbc_repo.specs.Spelled.{HasSpelling};

/// What parts that fit link to, where no check of linking fails, has a spelling: its canonical parts fit, and link
/// back to it.
pub fn linked_parts_link_back()
    ensures { (w : Whole) → parts_fit w.functions w.classes ≡ true → faults w ≡ [] → HasSpelling (resolved w) }
{}
