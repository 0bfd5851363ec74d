//! Laws of the definitions, each the contract of a function that does nothing.

ghost use Rattle.class_index.specs.Levels.{BaseByLevels, EffectsByLevels, LevelsAreSets};
ghost use Rattle.class_index.specs.Laws.{PathTypesRise, TargetsAreMethods, TargetsHaveMethods, TargetsRise, WritesRise};

/// The method of each class of the receiver's part is among the targets, where it takes the count.
#[tactic(auto, using(crate::proofs::TargetLaws::targets_have_methods))]
pub fn targets_have_methods()
    ensures { TargetsHaveMethods }
{}

/// Each target is the method of some class of the part, and takes the count.
#[tactic(auto, using(crate::proofs::TargetLaws::targets_are_methods))]
pub fn targets_are_methods()
    ensures { TargetsAreMethods }
{}

/// A part with more objects has more targets.
#[tactic(auto, using(crate::proofs::TargetLaws::targets_rise))]
pub fn targets_rise()
    ensures { TargetsRise }
{}

/// What reading finds is lower under lower facts, from a lower base and along lower keys.
pub fn path_types_rise()
    ensures { PathTypesRise }
{}

/// What writing leaves, in the base and in each property, is lower under lower facts, from a lower base, along lower keys
/// and with a lower value.
pub fn writes_rise()
    ensures { WritesRise }
{}

/// What is written in a property from the types of a level is what the level's key writes itself, with what is written
/// from the types of the next level.
pub fn effects_by_levels()
    ensures { EffectsByLevels }
{}

/// How often a type stands in a level makes no difference, nor in which order.
pub fn levels_are_sets()
    ensures { LevelsAreSets }
{}

/// What is left of a base asks for what is left of the types of the next level alone.
pub fn base_by_levels()
    ensures { BaseByLevels }
{}
