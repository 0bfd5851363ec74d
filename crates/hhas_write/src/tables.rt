//! Tables of the positions of a body: how often something stands at each, and the numbers of their labels.

ghost use Rattle.std.specs.Prelude.{◌≡◌, suc, IfOk, length};
ghost use Rattle.hhbc_repo.specs.Canonical.{firsts, lasts, mids, targets};
ghost use Rattle.hhas_write.specs.Tables.{Labels, Tallied};

use hack_values::{NoMemory, Seq};
use hhbc_repo::{Position, Region, push_labels};
use std::alloc::Global;

/// How often each number below the size is among these.
pub(crate) fn tally(alloc: Global, size: usize, numbers: &[u32]) -> Result<Vec<usize>, NoMemory>
    ensures { IfOk result (λ counts. Tallied size numbers.now counts.items) }
{
    let mut counts = vec![in alloc; 0; size]?;
    for number in numbers {
        let place = *number as usize;
        if place < size {
            counts[place] += 1;
        }
    }
    Ok(counts)
}

/// The positions that codes name, each as often as it is named.
fn targets(alloc: Global, positions: &[Position]) -> Result<Seq<u32>, NoMemory>
    ensures { IfOk result (λ out. out ≡ targets positions.now) }
{
    let mut out = Seq::new(alloc);
    for position in positions {
        push_labels(&mut out, &position.code)?;
    }
    Ok(out)
}

/// The numbers of labels, from how often each position is named.
fn numbered(
    alloc: Global,
    positions: &[Position],
    counts: &[usize],
) -> Result<Seq<Option<usize>>, NoMemory>
    requires { Tallied (suc (length positions.now)) (targets positions.now) counts.now }
    ensures { IfOk result (λ labels. Labels positions.now labels) }
{
    let mut labels = Seq::new(alloc);
    let mut next: usize = 0;
    for count in counts {
        if *count == 0 {
            labels.push(None)?;
        } else {
            labels.push(Some(next))?;
            next += 1;
        }
    }
    Ok(labels)
}

/// The number of each position's label, and that of the place behind the last position.
pub(crate) fn labels(alloc: Global, positions: &[Position]) -> Result<Seq<Option<usize>>, NoMemory>
    ensures { IfOk result (λ labels. Labels positions.now labels) }
{
    let named = targets(alloc, positions)?;
    let counts = tally(alloc, positions.len() + 1, named.as_slice())?;
    numbered(alloc, positions, &counts)
}

/// Where the catch bodies end.
pub(crate) fn lasts(alloc: Global, regions: &[Region]) -> Result<Seq<u32>, NoMemory>
    ensures { IfOk result (λ out. out ≡ lasts regions.now) }
{
    let mut out = Seq::new(alloc);
    for region in regions {
        out.push(region.last)?;
    }
    Ok(out)
}

/// Where the catch bodies begin.
pub(crate) fn mids(alloc: Global, regions: &[Region]) -> Result<Seq<u32>, NoMemory>
    ensures { IfOk result (λ out. out ≡ mids regions.now) }
{
    let mut out = Seq::new(alloc);
    for region in regions {
        out.push(region.mid)?;
    }
    Ok(out)
}

/// Where the try bodies begin.
pub(crate) fn firsts(alloc: Global, regions: &[Region]) -> Result<Seq<u32>, NoMemory>
    ensures { IfOk result (λ out. out ≡ firsts regions.now) }
{
    let mut out = Seq::new(alloc);
    for region in regions {
        out.push(region.first)?;
    }
    Ok(out)
}
