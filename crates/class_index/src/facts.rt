//! Facts: what every body returns and every property holds.

ghost use Rattle.std.specs.Prelude.{◌≡◌, ◌<◌, ◌++◌, OnOk, IfOk, Some, length, replicate, slice_get};
ghost use Rattle.type_lattice.specs.Types.{cell};
ghost use Rattle.hhbc_repo.specs.Bodies.{bodies};
ghost use Rattle.hhbc_repo.specs.LookUps.{all_properties, total};

use hack_values::{NoMemory, Seq};
use hhbc_repo::Repo;
use std::alloc::Global;
use type_lattice::HType;

/// A type for each body, of what it returns, and one for each property, of what it holds, by their numbers.
#[derive(Debug, Drop)]
pub struct Facts {
    pub returns: Seq<HType>,
    pub props: Seq<HType>,
}

/// The type of all cells, so many times.
fn cells(alloc: Global, count: u32) -> Result<Seq<HType>, NoMemory>
    ensures { IfOk result (λ types. types ≡ replicate count cell) }
{
    let mut types = Seq::new(alloc);
    for _ in 0..count {
        types.push(HType::CELL)?;
    }
    Ok(types)
}

impl Facts {
    /// The facts that say nothing.
    pub fn top(alloc: Global, repo: &Repo) -> Result<Facts, NoMemory>
        ensures { IfOk result (λ facts. facts ≡ record { returns = replicate (length (bodies repo.now)) cell; props = replicate (total (all_properties repo.now)) cell }) }
    {
        let returns = cells(alloc, repo.bodies())?;
        let props = cells(alloc, repo.properties())?;
        Ok(Facts { returns, props })
    }

    /// What a body returns.
    pub fn return_of(&self, body: u32) -> HType
        requires { body < length self.now.returns }
        ensures { slice_get self.now.returns body ≡ Some result }
    {
        self.returns.as_slice()[body as usize]
    }

    /// What a property holds.
    pub fn property_fact(&self, property: u32) -> HType
        requires { property < length self.now.props }
        ensures { slice_get self.now.props property ≡ Some result }
    {
        self.props.as_slice()[property as usize]
    }
}
