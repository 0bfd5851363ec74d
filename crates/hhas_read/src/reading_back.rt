//! Laws of canonical texts: they are read back to their repositories.

ghost use Rattle.std.specs.Prelude.{◌≡◌, ℕ, List};
ghost use Rattle.hhbc_repo.specs.CanonicalText.{canonical_text};
ghost use Rattle.hhbc_repo.specs.Linked.{Linked};
ghost use Rattle.hhbc_repo.specs.Spelled.{HasSpelling};
ghost use Rattle.hhas_read.specs.LinkedTexts.{IsReadFault, ReadsRepository};

use crate::linked_texts::ReadFault;
use hhbc_repo::Repo;

/// What a text is read as has a spelling, the canonical text of a repository that has one is read as this repository, and no
/// text is read as two. So what is written of a repository that was read is the same text when it is read and written again.
pub fn canonical_texts_are_read_back()
    ensures spelled { (bytes : List ℕ) (repo : Linked) → ReadsRepository bytes repo → HasSpelling repo }
    ensures reads { (repo : Linked) → HasSpelling repo → ReadsRepository (canonical_text repo) repo }
    ensures one { (bytes : List ℕ) (r s : Linked) → ReadsRepository bytes r → ReadsRepository bytes s → r ≡ s }
{}

/// The canonical text of a repository is read as the repository, as no other, and has no fault.
pub fn repository_is_read_back(repo: &Repo)
    ensures reads { ReadsRepository (canonical_text repo.now) repo.now }
    ensures one { (other : Linked) → ReadsRepository (canonical_text repo.now) other → other ≡ repo.now }
    ensures none { (fault : ReadFault) → IsReadFault (canonical_text repo.now) fault → fault ≡ ReadFault.NoMemory }
{
    repo.has_spelling();
}
