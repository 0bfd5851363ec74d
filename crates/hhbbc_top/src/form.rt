//! The one function of a repository of the form that is annotated and run: `main`, without parameters, of constants, locals and one `RetC` at its end, with claims of plain types.

ghost use Rattle.std.specs.Prelude.{◌≡◌, ◌≢◌, ◌↔◌, ◌<◌, ℕ, ℤ, [], ◌∷◌, All, Err, IfOk, IsTrue, MatchOption, Some, codes};
ghost use Rattle.hhbc_semantics.specs.Form.{IsSecondForm};
ghost use Rattle.hhbc_semantics.specs.Form as forms;
ghost use Rattle.hhbc_repo.specs.LinkFaults.{place_in};
ghost use Rattle.hhbc_semantics.specs.PlainTypes as types;
ghost use Rattle.hhbc_repo.specs.Shapes.{Types};
ghost use Rattle.hhbc_repo.specs.declared.code.Imm.TheVariants as imms;
ghost use Rattle.type_lattice.specs.Types as lattice;
ghost use Rattle.hhbbc_top.specs.Forms.{plain};
ghost use Rattle.hhbbc_top.specs.Mains as mains;

use hack_values::{NoMemory, Seq, Text};
use hhbc_ops::Op;
use hhbc_repo::{Assert, Body, Code, Imm, Position, Repo};
use std::alloc::Global;
use type_lattice::{HType, IntPart, Leaf, ObjPart, StrPart};

/// A code. Locals are numbers.
#[derive(Clone, Copy, PartialEq, Eq)]
pub enum Step {
    Null,
    True,
    False,
    Int(i64),
    PopC,
    SetL(u8),
    CGetL(u8),
    RetC,
}

/// A code, and the assertions before it.
#[derive(Drop)]
pub struct Line {
    pub asserts: Seq<Assert>,
    pub step: Step,
}

/// What the one function of a repository states of its result, its locals and its codes.
#[derive(Drop)]
pub struct Main {
    pub stated: Option<HType>,
    pub locals: Seq<Text>,
    pub codes: Seq<Line>,
}

/// Why a repository has no such function.
#[derive(Clone, Copy, PartialEq, Eq)]
pub enum Unfit {
    /// The repository isn't of the form.
    OtherForm,
    NoMemory,
}

impl From<NoMemory> for Unfit {
    ghost use Rattle.std.specs.Prelude.{◌≡◌};
    ghost use Rattle.hhbbc_top.specs.declared.form.Unfit.TheVariants.{NoMemory as WantOfMemory};

    ghost from_gives = { λ _ e. e ≡ WantOfMemory };

    fn from(_want: NoMemory) -> Unfit {
        Unfit::NoMemory
    }
}

const MAX_LOCALS: usize = 255;

const MAX_CODES: usize = 200;

const NULL: HType = HType {
    null: true,
    ..HType::NEVER
};

const FALSE: HType = HType {
    no: true,
    ..HType::NEVER
};

const TRUE: HType = HType {
    yes: true,
    ..HType::NEVER
};

const BOOL: HType = HType {
    no: true,
    yes: true,
    ..HType::NEVER
};

const INT: HType = HType {
    int: IntPart::Any,
    ..HType::NEVER
};

const STR: HType = HType {
    str: StrPart::Any,
    ..HType::NEVER
};

const BARE_CELL: HType = HType {
    null: true,
    no: true,
    yes: true,
    int: IntPart::Any,
    str: StrPart::Any,
    obj: ObjPart::Any,
    ..HType::NEVER
};

fn one_int(number: i64) -> HType
    ensures { result ≡ types.one_int number }
{
    HType {
        int: IntPart::One(number),
        ..HType::NEVER
    }
}

/// Whether the type is of one int alone.
fn is_one_int(t: &HType) -> bool
    ensures { IsTrue result ↔ mains.IsOneInt t.now }
{
    match t.int {
        IntPart::One(number) => *t == one_int(number),
        _ => false,
    }
}

fn is_never(t: &HType) -> bool
    ensures { IsTrue result ↔ (t.now ≡ types.type_named types.Never) }
{
    *t == HType::NEVER
}

/// Whether a part of a container is of all cells.
fn is_cell_leaf(leaf: &Leaf) -> bool
    ensures { IsTrue result ↔ (leaf.now ≡ lattice.cell_leaf) }
{
    *leaf == Leaf::CELL
}

/// Whether a part of a container is of all keys.
fn is_key_leaf(leaf: &Leaf) -> bool
    ensures { IsTrue result ↔ (leaf.now ≡ lattice.key_leaf) }
{
    *leaf == Leaf::KEY
}

fn is_cell_vec(part: &Option<Leaf>) -> bool
    ensures { IsTrue result ↔ (part.now ≡ Some lattice.cell_leaf) }
{
    match part {
        None => false,
        Some(items) => is_cell_leaf(items),
    }
}

fn is_cell_dict(part: &Option<(Leaf, Leaf)>) -> bool
    ensures { IsTrue result ↔ (part.now ≡ Some (lattice.key_leaf, lattice.cell_leaf)) }
{
    match part {
        None => false,
        Some((keys, values)) => is_key_leaf(keys) && is_cell_leaf(values),
    }
}

fn is_cell_keyset(part: &Option<Leaf>) -> bool
    ensures { IsTrue result ↔ (part.now ≡ Some lattice.key_leaf) }
{
    match part {
        None => false,
        Some(elements) => is_key_leaf(elements),
    }
}

/// The type without its containers.
fn bare(t: &HType) -> HType
    ensures { result ≡ mains.bare t.now }
{
    HType {
        vec: None,
        dict: None,
        keyset: None,
        ..*t
    }
}

/// Whether the type is that of all cells, but for its containers.
fn is_bare_cell(t: &HType) -> bool
    ensures { IsTrue result ↔ (mains.bare t.now ≡ mains.bare lattice.cell) }
{
    bare(t) == BARE_CELL
}

fn is_cell(t: &HType) -> bool
    ensures { IsTrue result ↔ (t.now ≡ types.type_named types.Cell) }
{
    is_bare_cell(t) && is_cell_vec(&t.vec) && is_cell_dict(&t.dict) && is_cell_keyset(&t.keyset)
}

fn is_uninit(t: &HType) -> bool
    ensures { IsTrue result ↔ (t.now ≡ types.type_named types.Uninit) }
{
    *t == HType::UNINIT
}

fn is_null(t: &HType) -> bool
    ensures { IsTrue result ↔ (t.now ≡ types.type_named types.Null) }
{
    *t == NULL
}

fn is_false(t: &HType) -> bool
    ensures { IsTrue result ↔ (t.now ≡ types.type_named types.False) }
{
    *t == FALSE
}

fn is_true(t: &HType) -> bool
    ensures { IsTrue result ↔ (t.now ≡ types.type_named types.True) }
{
    *t == TRUE
}

fn is_bool(t: &HType) -> bool
    ensures { IsTrue result ↔ (t.now ≡ types.type_named types.Bool) }
{
    *t == BOOL
}

fn is_int(t: &HType) -> bool
    ensures { IsTrue result ↔ (t.now ≡ types.type_named types.Int) }
{
    *t == INT
}

fn is_str(t: &HType) -> bool
    ensures { IsTrue result ↔ (t.now ≡ types.type_named types.Str) }
{
    *t == STR
}

/// Whether the type is one that a word names.
fn is_named(t: &HType) -> bool
    ensures { IsTrue result ↔ mains.IsNamed t.now }
{
    if is_never(t) {
        return true;
    }
    if is_cell(t) {
        return true;
    }
    if is_uninit(t) {
        return true;
    }
    if is_null(t) {
        return true;
    }
    if is_false(t) {
        return true;
    }
    if is_true(t) {
        return true;
    }
    if is_bool(t) {
        return true;
    }
    if is_int(t) {
        return true;
    }
    is_str(t)
}

fn is_plain(t: &HType) -> bool
    ensures { IsTrue result ↔ types.IsPlainType t.now }
{
    is_named(t) || is_one_int(t)
}

fn is_stated(stated: &Option<HType>) -> bool
    ensures { IsTrue result ↔ forms.FitsStated stated.now }
{
    match stated {
        None => true,
        Some(t) => is_plain(t),
    }
}

/// Whether an assertion is of a plain type, and about a local of the function or a slot that texts can name.
fn fits(assert: &Assert, locals: usize) -> bool
    ensures { IsTrue result ↔ forms.FitsAssert locals assert.now }
{
    match assert {
        Assert::Local(local, t) => (*local as usize) < locals && is_plain(t),
        Assert::Stack(slot, t) => *slot <= 254 && is_plain(t),
    }
}

fn all_fit(asserts: &[Assert], locals: usize) -> bool
    ensures { IsTrue result ↔ forms.FitAsserts locals asserts.now }
{
    for assert in asserts {
        if !fits(assert, locals) {
            return false;
        }
    }
    true
}

/// A code without operands.
fn alone(operands: &[Imm], step: Step) -> Option<Step>
    ensures { MatchOption result (operands.now ≢ []) (λ s. (operands.now ≡ []) × (s ≡ step)) }
{
    if operands.is_empty() {
        Some(step)
    } else {
        None
    }
}

/// The operand, where it is one int.
fn int_operand(operands: &[Imm]) -> Option<i64>
    ensures { MatchOption result ((i : ℤ) → operands.now ≢ imms.Int i ∷ []) (λ i. operands.now ≡ imms.Int i ∷ []) }
{
    match operands {
        [Imm::Int(number)] => Some(*number),
        _ => None,
    }
}

/// The operand, where it is one local of so many.
fn local_operand(operands: &[Imm], locals: usize) -> Option<u8>
    ensures { MatchOption result ((l : ℕ) → operands.now ≡ imms.Local l ∷ [] → l < locals → ⊥) (λ l. (operands.now ≡ imms.Local l ∷ []) × (l < locals)) }
{
    match operands {
        [Imm::Local(local)] => {
            if (*local as usize) < locals {
                Some(*local)
            } else {
                None
            }
        }
        _ => None,
    }
}

/// An instruction with its operands as a step.
fn plain_step(op: Op, operands: &[Imm], locals: usize) -> Option<Step>
    ensures { MatchOption result (forms.FitsOperands locals op operands.now → ⊥) (λ s. mains.IsStep locals (plain op operands.now) s) }
{
    match op {
        Op::Null => alone(operands, Step::Null),
        Op::True => alone(operands, Step::True),
        Op::False => alone(operands, Step::False),
        Op::Int => Some(Step::Int(int_operand(operands)?)),
        Op::PopC => alone(operands, Step::PopC),
        Op::SetL => Some(Step::SetL(local_operand(operands, locals)?)),
        Op::CGetL => Some(Step::CGetL(local_operand(operands, locals)?)),
        Op::RetC => alone(operands, Step::RetC),
        _ => None,
    }
}

fn step_of(code: &Code, locals: usize) -> Option<Step>
    ensures { MatchOption result (forms.FitsCode locals code.now → ⊥) (λ s. mains.IsStep locals code.now s) }
{
    match code {
        Code::Plain(instr) => plain_step(instr.op, instr.imms.as_slice(), locals),
        Code::Member(_) => None,
    }
}

fn copied(alloc: Global, asserts: &[Assert]) -> Result<Seq<Assert>, NoMemory>
    ensures { IfOk result (λ copies. copies ≡ asserts.now) }
{
    let mut copies = Seq::new(alloc);
    for assert in asserts {
        copies.push(*assert)?;
    }
    Ok(copies)
}

/// A code with its assertions.
fn line_of(alloc: Global, position: &Position, locals: usize) -> Result<Line, Unfit>
    ensures read { IfOk result (λ line. mains.IsLine locals position.now line) }
    ensures other { result ≡ Err Unfit.OtherForm → forms.FitsClaimed locals position.now → ⊥ }
{
    if !all_fit(position.asserts.as_slice(), locals) {
        return Err(Unfit::OtherForm);
    }
    let Some(step) = step_of(&position.code, locals) else {
        return Err(Unfit::OtherForm);
    };
    let asserts = copied(alloc, position.asserts.as_slice())?;
    Ok(Line { asserts, step })
}

/// All codes with their assertions.
fn lines_of(alloc: Global, positions: &[Position], locals: usize) -> Result<Seq<Line>, Unfit>
    ensures read { IfOk result (λ lines. mains.AreLines locals positions.now lines) }
    ensures other { result ≡ Err Unfit.OtherForm → All (forms.FitsClaimed locals) positions.now → ⊥ }
{
    let mut lines = Seq::new(alloc);
    for position in positions {
        match line_of(alloc, position, locals) {
            Ok(line) => lines.push(line)?,
            Err(unfit) => return Err(unfit),
        }
    }
    Ok(lines)
}

fn is_return(step: Step) -> bool
    ensures { result ≡ mains.is_return step }
{
    matches!(step, Step::RetC)
}

/// Whether a code that returns stands last, and none before it.
fn returns_last(lines: &[Line]) -> bool
    ensures { result ≡ mains.returns_last lines.now }
{
    let mut returned = false;
    for line in lines {
        if returned {
            return false;
        }
        returned = is_return(line.step);
    }
    returned
}

/// The codes of a body, where they are of the form.
#[tactic(auto, using(crate::proofs::Fitting::codes_made, crate::proofs::Fitting::not_last))]
fn codes_of(alloc: Global, positions: &[Position], locals: usize) -> Result<Seq<Line>, Unfit>
    ensures read { IfOk result (λ lines. mains.AreCodes locals positions.now lines) }
    ensures other { result ≡ Err Unfit.OtherForm → forms.FitClaimed locals positions.now → ⊥ }
{
    match lines_of(alloc, positions, locals) {
        Ok(lines) => {
            if returns_last(lines.as_slice()) {
                Ok(lines)
            } else {
                Err(Unfit::OtherForm)
            }
        }
        Err(unfit) => Err(unfit),
    }
}

/// The place of the first local of a name.
fn place_of(locals: &[Text], name: &[u8]) -> Option<usize>
    ensures { result ≡ place_in locals.now name.now }
{
    locals.iter().position(|local| local.bytes() == name)
}

/// The locals of a body, where no two have one name.
fn locals_of(alloc: Global, names: &[Text]) -> Result<Seq<Text>, Unfit>
    ensures read { IfOk result (λ locals. (locals ≡ names.now) × forms.AllDiffer names.now) }
    ensures other { result ≡ Err Unfit.OtherForm → forms.AllDiffer names.now → ⊥ }
{
    let mut locals = Seq::new(alloc);
    for name in names {
        if place_of(locals.as_slice(), name.bytes()).is_some() {
            return Err(Unfit::OtherForm);
        }
        locals.push(name.copy(alloc)?)?;
    }
    Ok(locals)
}

fn is_main(name: &[u8]) -> bool
    ensures { IsTrue result ↔ (name.now ≡ codes "main") }
{
    name == b"main".as_slice()
}

/// Whether all but the names of its locals and its codes is of the form.
fn has_head(body: &Body) -> bool
    ensures { IsTrue result ↔ mains.IsHead body.now }
{
    if !is_main(body.name.bytes()) {
        return false;
    }
    if body.params > 0 || body.iters > 0 {
        return false;
    }
    if !body.regions.as_slice().is_empty() {
        return false;
    }
    if !is_stated(&body.stated) {
        return false;
    }
    body.locals.as_slice().len() <= MAX_LOCALS && body.positions.as_slice().len() <= MAX_CODES
}

/// What is made of a body of the form.
#[tactic(auto, using(crate::proofs::Fitting::head_of))]
fn main_in(alloc: Global, body: &Body) -> Result<Main, Unfit>
    ensures read { IfOk result (λ main. mains.IsMainIn body.now main) }
    ensures other { result ≡ Err Unfit.OtherForm → forms.IsSecondBody body.now → ⊥ }
{
    if !has_head(body) {
        return Err(Unfit::OtherForm);
    }
    match locals_of(alloc, body.locals.as_slice()) {
        Ok(locals) => coded(alloc, body, locals),
        Err(unfit) => Err(unfit),
    }
}

/// What is made of the codes of a body, with the locals copied.
#[tactic(auto, using(crate::proofs::Fitting::main_made))]
fn coded(alloc: Global, body: &Body, locals: Seq<Text>) -> Result<Main, Unfit>
    requires copied { locals ≡ body.now.locals }
    requires head { mains.IsHead body.now }
    requires differ { forms.AllDiffer body.now.locals }
    ensures read { IfOk result (λ main. mains.IsMainIn body.now main) }
    ensures other { result ≡ Err Unfit.OtherForm → forms.IsSecondBody body.now → ⊥ }
{
    match codes_of(alloc, body.positions.as_slice(), locals.as_slice().len()) {
        Ok(codes) => Ok(Main {
            stated: body.stated,
            locals,
            codes,
        }),
        Err(unfit) => Err(unfit),
    }
}

/// The function that is all of a repository of the form.
pub fn main_of(alloc: Global, repo: &Repo) -> Result<Main, Unfit>
    requires { Types repo.now }
    ensures read { IfOk result (λ main. mains.IsMainOf repo.now main) }
    ensures other { result ≡ Err Unfit.OtherForm → IsSecondForm repo.now → ⊥ }
{
    let [body] = repo.functions() else {
        return Err(Unfit::OtherForm);
    };
    if !repo.classes().is_empty() {
        return Err(Unfit::OtherForm);
    }
    main_in(alloc, body)
}
