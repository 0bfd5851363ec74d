//! How deep bodies nest, and how many positions they have.

ghost use Rattle.std.specs.Prelude.{◌≡◌, length};
ghost use Rattle.std.specs.List.{flat_map};
ghost use Rattle.hhbc_repo.specs.LinkFaults.{nesting_from, position_in};

use crate::parts::ItemParts;

/// The most try and catch bodies that are open at one place.
pub(crate) fn nesting(items: &[ItemParts]) -> usize
    ensures { result ≡ nesting_from 0 items.now }
{
    let mut most: usize = 0;
    let mut opened: usize = 0;
    for item in items {
        match item {
            ItemParts::Try => {
                most = most.max(opened);
                opened += 1;
            }
            ItemParts::End => {
                most = most.max(opened);
                opened = opened.saturating_sub(1);
            }
            _ => {}
        }
    }
    most.max(opened)
}

/// How many positions there are.
pub(crate) fn count_positions(items: &[ItemParts]) -> usize
    ensures { result ≡ length (flat_map position_in items.now) }
{
    let mut count = 0;
    for item in items {
        if let ItemParts::Position(_) = item {
            count += 1;
        }
    }
    count
}
