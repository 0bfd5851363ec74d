//! Laws of what texts spell, each the contract of a function that does nothing.

ghost use Rattle.std.specs.Prelude.{◌≡◌, ◌<◌, ◌+◌, ℕ, true, List, [], length};
ghost use Rattle.std.specs.List.{list_all};
ghost use Rattle.hhas_lex.specs.Spelling.{is_proper};
ghost use Rattle.hhas_lex.specs.Tokens.{Token};
ghost use Rattle.hhbc_repo.specs.Bodies.{bodies};
ghost use Rattle.hhbc_repo.specs.Fits.{parts_fit};
ghost use Rattle.hhbc_repo.specs.Languages.{Many};
ghost use Rattle.hhbc_repo.specs.Lengths.{parts_fewer};
ghost use Rattle.hhbc_repo.specs.LinkFaults.{Whole, class_names, faults, properties};
ghost use Rattle.hhbc_repo.specs.LookUps.{total};
ghost use Rattle.hhbc_repo.specs.Resolved.{resolved};
ghost use Rattle.hhbc_repo.specs.TextSyntax.{ADeclaration, Declaration, classes_of, functions_of};
ghost use Rattle.hhbc_repo.specs.Within.{body_within};

/// What tokens of a text spell keeps to the ranges of words, integers, strings and indices, its types are
/// proper, its operands are those of their instructions, and its try bodies are closed.
pub fn spelled_parts_fit()
    ensures { (ts : List Token) (ds : List Declaration) → list_all is_proper ts ≡ true → Many ADeclaration ts ds → parts_fit (functions_of ds) (classes_of ds) ≡ true }
{}

/// The lists that tokens spell have no more elements than there are tokens, and so have all properties together but that
/// of Exception.
pub fn spelled_parts_are_few()
    ensures lists { (n : ℕ) (ts : List Token) (ds : List Declaration) → Many ADeclaration ts ds → length ts < n → parts_fewer n (record { functions = functions_of ds; classes = classes_of ds }) ≡ true }
    ensures properties { (n : ℕ) (ts : List Token) (ds : List Declaration) → Many ADeclaration ts ds → length ts + 2 < n → total (properties (record { functions = functions_of ds; classes = classes_of ds })) + 1 < n }
{}

/// Each body of what parts that fit link to keeps to its ranges, where no check of linking fails: its words, ints,
/// strings and indices, and the numbers of its locals, iterators and positions and of the classes of the repository.
pub fn linked_bodies_keep_to_ranges()
    ensures { (w : Whole) → parts_fit w.functions w.classes ≡ true → faults w ≡ [] → list_all (body_within (length (class_names w))) (bodies (resolved w)) ≡ true }
{}
