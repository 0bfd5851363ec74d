//! How much there is in a repository.

ghost use Rattle.std.specs.Prelude.{◌≡◌, ◌++◌, IfOk, OnOk, length};
ghost use Rattle.std.specs.Fmt.{decimal};
ghost use Rattle.hhbc_repo.specs.Bodies.{bodies};
ghost use Rattle.hhbc_repo.specs.LookUps.{methods_in};
ghost use Rattle.hhbbc_top.specs.Counts as counts;

use hack_values::{NoMemory, Text};
use hhbc_repo::Repo;
use std::alloc::Global;

/// How many positions all bodies have. There is no memory for more than 64 bits can tell.
#[tactic(auto, using(crate::proofs::Counting::none_left, crate::proofs::Counting::next_counted))]
fn positions_of(repo: &Repo) -> Result<u64, NoMemory>
    ensures { IfOk result (λ count. count ≡ counts.position_count (bodies repo.now)) }
{
    let mut count: u64 = 0;
    for number in 0..repo.bodies() {
        match count.checked_add(repo.body(number).positions.as_slice().len() as u64) {
            Some(sum) => count = sum,
            None => return Err(NoMemory),
        }
    }
    Ok(count)
}

/// How many methods all classes have.
#[tactic(auto, using(crate::proofs::Counting::methods_behind))]
fn methods_of(repo: &Repo) -> usize
    ensures { result ≡ length (methods_in repo.now.classes) }
{
    repo.bodies() as usize - repo.functions().len()
}

/// Adds a number behind its word.
fn push_count(alloc: Global, line: &mut Text, word: &[u8], count: u64) -> Result<(), NoMemory>
    ensures { OnOk result (line.new ≡ line.old ++ (word.now ++ decimal count)) }
{
    let digits = format!(in alloc; "{count}")?;
    line.append(word)?;
    line.append(digits.as_bytes())
}

/// The line of a repository that is checked.
pub fn counts_line(alloc: Global, repo: &Repo) -> Result<Text, NoMemory>
    ensures { IfOk result (λ line. line ≡ counts.counts_line repo.now) }
{
    let positions = positions_of(repo)?;
    let mut line = Text::from_bytes(alloc, b"")?;
    push_count(
        alloc,
        &mut line,
        b"functions ",
        repo.functions().len() as u64,
    )?;
    push_count(alloc, &mut line, b" methods ", methods_of(repo) as u64)?;
    push_count(alloc, &mut line, b" classes ", repo.classes().len() as u64)?;
    push_count(alloc, &mut line, b" positions ", positions)?;
    line.append(b"\n")?;
    Ok(line)
}
