//! Laws of what is spelled, each the contract of a function that does nothing.

ghost use Rattle.std.specs.Prelude.{◌≡◌, true};
ghost use Rattle.hhbc_repo.specs.Bare.{bare};
ghost use Rattle.hhbc_repo.specs.CanonicalText.{parts_text};
ghost use Rattle.hhbc_repo.specs.Claims.{claims_within};
ghost use Rattle.hhbc_repo.specs.Fits.{parts_fit};
ghost use Rattle.hhbc_repo.specs.LinkFaults.{Whole};
ghost use Rattle.hhbc_repo.specs.Linked.{Linked};
ghost use Rattle.hhbc_repo.specs.Spelled.{HasSpelling};
ghost use Rattle.hhbc_repo.specs.TextSyntax.{Spells};

/// The text of parts that fit spells just these parts.
pub fn fitting_parts_are_spelled()
    ensures { (w : Whole) → parts_fit w.functions w.classes ≡ true → Spells (parts_text w) w }
{}

/// A repository that has a spelling has one with other stated types and assertions too, where these keep to their ranges.
pub fn claims_leave_a_spelling()
    ensures { (r s : Linked) → bare r ≡ bare s → claims_within s ≡ true → HasSpelling r → HasSpelling s }
{}
