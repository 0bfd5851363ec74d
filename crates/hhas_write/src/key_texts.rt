//! Keys of member sequences.

ghost use Rattle.std.specs.Prelude.{◌≡◌, ◌++◌, OnOk};
ghost use Rattle.hhas_lex.specs.Spaced.{text_of};
ghost use Rattle.hhbc_repo.specs.Canonical.{canonical_key};
ghost use Rattle.hhbc_repo.specs.CanonicalText.{key_pieces};

use crate::pieces::{
    spaced_word, tagged_count, tagged_int, tagged_local, tagged_string, tagged_word,
};
use crate::scope::Scope;
use hack_values::{NoMemory, Text};
use hhbc_repo::MemberKey;

/// A key of a member sequence.
pub(crate) fn push_key(out: &mut Text, scope: &Scope<'_>, key: &MemberKey) -> Result<(), NoMemory>
    ensures { OnOk result (out.new ≡ out.old ++ text_of (key_pieces (canonical_key scope.now.body key.now))) }
{
    match key {
        MemberKey::ElemStack(slot) => tagged_count(out, b"EC", u16::from(*slot)),
        MemberKey::ElemLocal(local) => tagged_local(out, b"EL", scope.local(*local)),
        MemberKey::ElemText(text) => tagged_string(out, b"ET", text.bytes()),
        MemberKey::ElemInt(number) => tagged_int(out, b"EI", *number),
        MemberKey::PropStack(slot) => tagged_count(out, b"PC", u16::from(*slot)),
        MemberKey::PropLocal(local) => tagged_local(out, b"PL", scope.local(*local)),
        MemberKey::PropName(name) => tagged_word(out, b"PT", name.bytes()),
        MemberKey::NullsafeName(name) => tagged_word(out, b"QT", name.bytes()),
        MemberKey::Append => spaced_word(out, b"W"),
    }
}
