//! The items of a body.

ghost use Rattle.std.specs.Prelude.{◌≡◌, ◌++◌, OnOk};
ghost use Rattle.hhas_lex.specs.Spaced.{text_of};
ghost use Rattle.hhbc_repo.specs.Canonical.{items_from};
ghost use Rattle.hhbc_repo.specs.CanonicalText.{item_pieces};

use crate::assertions::push_position;
use crate::scope::Scope;
use crate::turns::push_before;
use hack_values::{NoMemory, Text};

/// The positions of a body, each behind what stands before it, and what stands behind the last.
pub(crate) fn push_items(out: &mut Text, depth: usize, scope: &Scope<'_>) -> Result<(), NoMemory>
    ensures { OnOk result (out.new ≡ out.old ++ text_of (item_pieces depth (items_from scope.now.classes scope.now.body 0 scope.now.body.positions))) }
{
    let positions = scope.positions();
    let mut inner = depth;
    for (place, position) in positions.iter().enumerate() {
        push_before(out, &mut inner, scope, place)?;
        push_position(out, inner, scope, position)?;
    }
    push_before(out, &mut inner, scope, positions.len())
}
