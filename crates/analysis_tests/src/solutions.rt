ghost use Rattle.std.specs.Prelude.{◌≤◌, IfOk};
ghost use Rattle.analysis_tests.specs.Climb.{climbs, IsLevel};
ghost use Rattle.func_analyze.specs.TypeAnalysis.{by_types};
ghost use Rattle.hhbc_semantics.specs.ShapeAnalysis.{by_shapes};
ghost use Rattle.analysis_tests.specs.ClimbLaws.{climb_monotone, climb_leads, level_reflexive, level_transitive, level_enters, level_bounded, level_higher};

use func_analyze::{Problem, least};
use hack_values::NoMemory;
use hhbc_semantics::{Analysed, facts_stay_true, rounds_stay_true};
use std::alloc::Global;
use std::test::Fail;

/// Five positions: 1 and 2 are a loop, 3 is behind it, and nothing leads to 4. Its levels rise up to 4.
#[derive(Clone, Copy)]
struct Climb;

impl Problem for Climb {
    type State = u8;

    ghost positions = { λ _. 5 };

    ghost start = { λ _. 0 };

    ghost flows = { λ _ p s. climbs p s };

    ghost below = { λ _ s t. s ≤ t };

    ghost fits = { λ _ p s. IsLevel p s };

    ghost rank = { λ _ s. s };

    ghost top = { λ _. 4 };

    fn positions(&self) -> usize {
        5
    }

    fn entry(&self, _alloc: Global) -> Result<u8, NoMemory> {
        Ok(0)
    }

    fn flow(
        &self,
        alloc: Global,
        position: usize,
        state: &u8,
    ) -> Result<Vec<(usize, u8)>, NoMemory> {
        let level = (*state).max(position as u8);
        let mut to = Vec::new(alloc);
        match position {
            0 => to.push((1, level))?,
            1 => to.push((2, level))?,
            2 => {
                to.push((1, level))?;
                to.push((3, level))?;
            }
            3 => {}
            _ => to.push((3, level))?,
        }
        Ok(to)
    }

    fn is_below(&self, _position: usize, lower: &u8, upper: &u8) -> bool {
        *lower <= *upper
    }

    fn join(
        &self,
        _alloc: Global,
        _position: usize,
        left: &u8,
        right: &u8,
    ) -> Result<u8, NoMemory> {
        Ok((*left).max(*right))
    }

    ghost reflexive = { λ _ s. level_reflexive s };

    ghost transitive = { λ _ s t u h k. level_transitive s t u h k };

    ghost monotone = { λ _ p s u _ h. climb_monotone p s u h };

    ghost starts = { λ _. level_enters };

    ghost inside = { λ _ p s h. h.0 };

    ghost leads = { λ _ p s h. climb_leads p s h };

    ghost higher = { λ _ p s t _ _ h k. level_higher s t h k };

    ghost bounded = { λ _ p s h. level_bounded p s h };
}

#[test]
fn a_loop_and_what_is_not_reached(rt: HostRuntime) -> Result<(), Fail> {
    let table = least(rt.alloc(), &Climb)?;
    let expected = [Some(0), Some(2), Some(2), Some(2), None];
    assert_eq!(rt; table.as_slice(), expected.as_slice());
    Ok(())
}

/// Frames by the types of their slots.
struct ByTypes;

impl Analysed for ByTypes {
    ghost analysis = { λ r. by_types r };
}

/// Frames by the shapes of their stacks.
struct ByShapes;

impl Analysed for ByShapes {
    ghost analysis = { λ r. by_shapes r };
}

#[test]
fn types_and_shapes_are_analyses_of_runs(_rt: HostRuntime) -> Result<(), Fail> {
    facts_stay_true::<ByTypes>();
    rounds_stay_true::<ByTypes>();
    facts_stay_true::<ByShapes>();
    rounds_stay_true::<ByShapes>();
    Ok(())
}
