//! Laws of the definitions, each the contract of a function that does nothing.

ghost use Rattle.hhbc_semantics.specs.Accepted.{AcceptedHasOperands, BareIsAccepted};
ghost use Rattle.hhbc_semantics.specs.Truth.{FirstFormNeverSticks, SecondFormNeverSticks, RunsAsBare, BareIsFirstForm};
ghost use Rattle.hhbc_semantics.specs.ShapeAnalysis.{LocalCodesNeverStick};
ghost use Rattle.hhbc_semantics.specs.GivenShapes.{NeverSticks, FramesKeepShapes};
ghost use Rattle.hhbc_semantics.specs.Walks.{TypesWhereItWalks, TypesWhereAssertedWalks};

/// No run of a repository that keeps to its shapes meets an underflow, a wrong flavour or a wrong
/// iterator, where all its codes are those of constants and locals, in any number of bodies and
/// with handlers, and whether its assertions are tested or not.
pub fn local_codes_never_stick()
    ensures { LocalCodesNeverStick }
{}

/// A repository of the first form keeps to its shapes exactly where each of its codes finds on the
/// stack what it takes away.
pub fn types_where_it_walks()
    ensures { TypesWhereItWalks }
{}

/// No run of a repository of the first form that keeps to its shapes meets an underflow, a wrong
/// flavour or a wrong iterator.
pub fn first_form_never_sticks()
    ensures { FirstFormNeverSticks }
{}

/// A repository of the second form keeps to its shapes exactly where each of its codes and each of
/// its assertions finds its slots on the stack.
pub fn types_where_asserted_walks()
    ensures { TypesWhereAssertedWalks }
{}

/// No run of a repository of the second form that keeps to its shapes meets an underflow, a wrong
/// flavour or a wrong iterator, whether its assertions are tested or not.
pub fn second_form_never_sticks()
    ensures { SecondFormNeverSticks }
{}

/// Without its assertions tested a repository runs as it does without assertions and stated types.
pub fn runs_as_bare()
    ensures { RunsAsBare }
{}

/// A repository of the second form, without assertions and stated types, is of the first form; it
/// keeps to its shapes where the whole repository does.
pub fn bare_is_first_form()
    ensures { BareIsFirstForm }
{}

/// What is left of a repository that some text spells and that keeps to its shapes, without its
/// claims, is one too.
pub fn bare_is_accepted()
    ensures { BareIsAccepted }
{}

/// Each code of a repository that the program takes has its operands, within what its body and the
/// repository have; its bodies have their parameters among their locals.
pub fn accepted_has_operands()
    ensures { AcceptedHasOperands }
{}

/// No run of a repository that has its operands and keeps to its shapes meets an underflow, a wrong
/// flavour or a wrong iterator, whatever the natives, and whether its assertions are tested or not.
pub fn never_sticks()
    ensures { NeverSticks }
{}

/// In every state of every run of such a repository each frame has the shape of its position, those
/// that wait for a call too.
pub fn frames_keep_shapes()
    ensures { FramesKeepShapes }
{}
