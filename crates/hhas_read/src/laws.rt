//! Laws of texts.

ghost use Rattle.std.specs.Prelude.{◌≡◌, ℕ, List};
ghost use Rattle.hhbc_repo.specs.LinkFaults.{Whole};
ghost use Rattle.hhbc_repo.specs.TextSyntax.{FirstFault, Spells};

/// What a text spells is one repository.
pub fn text_spells_one_repository()
    ensures { (bytes : List ℕ) (r s : Whole) → Spells bytes r → Spells bytes s → r ≡ s }
{}

/// A text that spells a repository has no fault, and no text has two first faults.
pub fn first_fault_is_one()
    ensures spelled { (bytes : List ℕ) (r : Whole) (at : ℕ) → Spells bytes r → FirstFault bytes at → ⊥ }
    ensures one { (bytes : List ℕ) (a b : ℕ) → FirstFault bytes a → FirstFault bytes b → a ≡ b }
{}
