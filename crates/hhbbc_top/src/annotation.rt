//! Types along the codes of a text, and the repository that states them.

ghost use Rattle.std.specs.Prelude.{◌≡◌, ◌<◌, ◌^◌, ◌++◌, [], ◌∷◌, true, map, reverse, length, replicate, slice_get, slice_set, IfOk, OnOk, Some};
ghost use Rattle.type_lattice.specs.Types as types;
ghost use Rattle.type_lattice.specs.Never.{all_alive};
ghost use Rattle.abstract_step.specs.State as states;
ghost use Rattle.hhbc_repo.specs.Ranges.{few_iterators};
ghost use Rattle.hhbc_repo.specs.Spelled.{HasSpelling};
ghost use Rattle.func_analyze.specs.Annotated as annotated;
ghost use Rattle.func_analyze.specs.Chain as along;
ghost use Rattle.hhbbc_top.specs.Forms.{code_of, bare_of, plain, bare_repo_of, state_of, if_reached};

use crate::form::{Line, Main, Step};
use hack_values::{Cell, NoMemory, Seq, Text};
use hhbc_ops::Op;
use hhbc_repo::{Assert, Body, Code, Imm, Instr, Position, Repo, linked_bodies_keep_to_ranges};
use std::alloc::Global;
use type_lattice::{HType, of_literal};

/// The types of the locals, and of the slots of the stack with the top last.
#[derive(Drop)]
pub struct Types {
    pub locals: Vec<HType>,
    pub stack: Vec<HType>,
}

/// Whether each of the types has members.
fn are_alive(ts: &[HType]) -> bool
    ensures { result ≡ all_alive ts.now }
{
    for t in ts {
        if t.is_never() {
            return false;
        }
    }
    true
}

#[tactic(auto, using(crate::proofs::Stacks::all_alive_reverse))]
fn are_alive_from_top(ts: &[HType]) -> bool
    ensures { result ≡ all_alive (reverse ts.now) }
{
    are_alive(ts)
}

/// The topmost of the types.
fn top_of(stack: &[HType]) -> Option<HType>
    ensures { result ≡ slice_get (reverse stack.now) 0 }
{
    stack.last().copied()
}

fn type_at(ts: &[HType], place: u8) -> Option<HType>
    ensures { result ≡ slice_get ts.now place }
{
    ts.get(place as usize).copied()
}

fn push_type(stack: &mut Vec<HType>, t: HType) -> Result<(), NoMemory>
    ensures { OnOk result (reverse stack.new.items ≡ t ∷ reverse stack.old.items) }
{
    stack.push(t)?;
    Ok(())
}

/// The types that enter a function without parameters.
fn entry(alloc: Global, locals: usize) -> Result<Types, NoMemory>
    ensures { IfOk result (λ t. state_of t ≡ record { locals = replicate locals types.uninit; stack = []; iters = [] }) }
{
    Ok(Types {
        locals: vec![in alloc; HType::UNINIT; locals]?,
        stack: Vec::new(alloc),
    })
}

/// What a code makes of the types; false where nothing follows it.
fn pass(ts: &mut Types, step: Step) -> Result<bool, NoMemory>
    ensures { IfOk result (λ goes. if_reached goes (state_of ts.new) ≡ (along.row_of (code_of step) (state_of ts.old)).behind) }
{
    match step {
        Step::Null => {
            push_type(&mut ts.stack, of_literal(&Cell::Null))?;
            Ok(true)
        }
        Step::True => {
            push_type(&mut ts.stack, of_literal(&Cell::Bool(true)))?;
            Ok(true)
        }
        Step::False => {
            push_type(&mut ts.stack, of_literal(&Cell::Bool(false)))?;
            Ok(true)
        }
        Step::Int(number) => {
            push_type(&mut ts.stack, of_literal(&Cell::Int(number)))?;
            Ok(true)
        }
        Step::PopC => Ok(ts.stack.pop().is_some()),
        Step::SetL(number) => {
            let Some(top) = top_of(&ts.stack) else {
                return Ok(false);
            };
            let place = number as usize;
            if place < ts.locals.len() {
                ts.locals[place] = top;
            }
            Ok(true)
        }
        Step::CGetL(number) => {
            let Some(found) = type_at(&ts.locals, number) else {
                return Ok(false);
            };
            push_type(&mut ts.stack, found.initialised())?;
            Ok(true)
        }
        Step::RetC => Ok(false),
    }
}

fn are_all_alive(ts: &Types) -> bool
    ensures { result ≡ states.is_alive (state_of ts.now) }
{
    are_alive(&ts.locals) && are_alive_from_top(&ts.stack)
}

/// Goes on behind a code, from types that are reached or not.
fn advance(ts: &mut Types, reached: bool, step: Step) -> Result<bool, NoMemory>
    ensures { IfOk result (λ goes. if_reached goes (state_of ts.new) ≡ along.state_behind (code_of step) (if_reached reached (state_of ts.old))) }
{
    if !reached {
        return Ok(false);
    }
    let goes = pass(ts, step)?;
    if goes {
        Ok(are_all_alive(ts))
    } else {
        Ok(false)
    }
}

/// Adds the assertion of a local's type, unless every cell is of it.
fn claim_local(claims: &mut Seq<Assert>, local: u8, t: Option<HType>) -> Result<(), NoMemory>
    ensures { OnOk result (claims.new ≡ claims.old ++ annotated.claim (λ u. Assert.Local local u) t) }
{
    let Some(t) = t else {
        return Ok(());
    };
    if t.has_all_cells() {
        Ok(())
    } else {
        claims.push(Assert::Local(local, t))
    }
}

/// Adds the assertion of the type of the topmost slot, unless every cell is of it.
fn claim_top(claims: &mut Seq<Assert>, t: Option<HType>) -> Result<(), NoMemory>
    ensures { OnOk result (claims.new ≡ claims.old ++ annotated.claim (λ u. Assert.Stack 0 u) t) }
{
    let Some(t) = t else {
        return Ok(());
    };
    if t.has_all_cells() {
        Ok(())
    } else {
        claims.push(Assert::Stack(0, t))
    }
}

/// The assertions before a code that is reached.
#[tactic(auto, using(crate::proofs::Stacks::append_nil))]
fn claims_of(alloc: Global, ts: &Types, step: Step) -> Result<Seq<Assert>, NoMemory>
    ensures { IfOk result (λ claims. claims ≡ annotated.claims (code_of step) (Some (state_of ts.now))) }
{
    let mut claims = Seq::new(alloc);
    match step {
        Step::CGetL(local) => {
            claim_local(&mut claims, local, type_at(&ts.locals, local))?;
            Ok(claims)
        }
        Step::PopC | Step::SetL(_) | Step::RetC => {
            claim_top(&mut claims, top_of(&ts.stack))?;
            Ok(claims)
        }
        Step::Null | Step::True | Step::False | Step::Int(_) => Ok(claims),
    }
}

/// The assertions before a code.
fn claims_at(alloc: Global, ts: &Types, reached: bool, step: Step) -> Result<Seq<Assert>, NoMemory>
    ensures { IfOk result (λ claims. claims ≡ annotated.claims (code_of step) (if_reached reached (state_of ts.now))) }
{
    if reached {
        claims_of(alloc, ts, step)
    } else {
        Ok(Seq::new(alloc))
    }
}

fn instr(alloc: Global, op: Op) -> Code
    ensures { result ≡ plain op [] }
{
    Code::Plain(Instr {
        op,
        imms: Seq::new(alloc),
    })
}

fn instr_with(alloc: Global, op: Op, operand: Imm) -> Result<Code, NoMemory>
    ensures { IfOk result (λ code. code ≡ plain op (operand ∷ [])) }
{
    let mut imms = Seq::new(alloc);
    imms.push(operand)?;
    Ok(Code::Plain(Instr { op, imms }))
}

fn code(alloc: Global, step: Step) -> Result<Code, NoMemory>
    ensures { IfOk result (λ code. code ≡ code_of step) }
{
    match step {
        Step::Null => Ok(instr(alloc, Op::Null)),
        Step::True => Ok(instr(alloc, Op::True)),
        Step::False => Ok(instr(alloc, Op::False)),
        Step::Int(number) => instr_with(alloc, Op::Int, Imm::Int(number)),
        Step::PopC => Ok(instr(alloc, Op::PopC)),
        Step::SetL(local) => instr_with(alloc, Op::SetL, Imm::Local(local)),
        Step::CGetL(local) => instr_with(alloc, Op::CGetL, Imm::Local(local)),
        Step::RetC => Ok(instr(alloc, Op::RetC)),
    }
}

/// A code with the assertions before it.
fn position(alloc: Global, ts: &Types, reached: bool, step: Step) -> Result<Position, NoMemory>
    ensures { IfOk result (λ p. p ≡ record { asserts = annotated.claims (code_of step) (if_reached reached (state_of ts.now)); code = code_of step }) }
{
    let asserts = claims_at(alloc, ts, reached, step)?;
    let code = code(alloc, step)?;
    Ok(Position { asserts, code })
}

/// The type that a code returns.
fn returned(ts: &Types, reached: bool, step: Step) -> HType
    ensures { result ≡ along.returned_by (code_of step) (if_reached reached (state_of ts.now)) }
{
    match step {
        Step::RetC => {
            if reached {
                top_of(&ts.stack).unwrap_or(HType::NEVER)
            } else {
                HType::NEVER
            }
        }
        _ => HType::NEVER,
    }
}

/// The positions with their assertions, from the types at the first, and the type that the last code returns.
fn positions(
    alloc: Global,
    codes: &[Line],
    mut ts: Types,
) -> Result<(Seq<Position>, HType), NoMemory>
    ensures { IfOk result (λ found. (found.0 ≡ annotated.with_claims (map bare_of codes.now) (along.chain (map bare_of codes.now) (Some (state_of ts))))
        × (found.1 ≡ along.returned_at_end (map bare_of codes.now) (Some (state_of ts)))) }
{
    let mut done = Seq::new(alloc);
    let mut reached = true;
    let mut last = HType::NEVER;
    for line in codes {
        done.push(position(alloc, &ts, reached, line.step)?)?;
        last = returned(&ts, reached, line.step);
        reached = advance(&mut ts, reached, line.step)?;
    }
    Ok((done, last))
}

/// The function with the types along it stated in place of its own claims.
fn stated_main(alloc: Global, main: Main) -> Result<Body, NoMemory>
    ensures is { IfOk result (λ body. record { functions = body ∷ []; classes = [] } ≡ along.annotated_by (bare_repo_of main)) }
    ensures few { IfOk result (λ body. few_iterators body ≡ true) }
{
    let Main {
        stated: _,
        locals,
        codes,
    } = main;
    let types = entry(alloc, locals.as_slice().len())?;
    let (positions, returned) = positions(alloc, codes.as_slice(), types)?;
    Ok(Body {
        name: Text::from_bytes(alloc, b"main")?,
        params: 0,
        locals,
        iters: 0,
        stated: Some(returned),
        positions,
        regions: Seq::new(alloc),
    })
}

/// The repository of one function, with the types along it stated in place of its own claims.
pub fn annotated(alloc: Global, main: Main) -> Result<Repo, NoMemory>
    requires { HasSpelling (along.annotated_by (bare_repo_of main)) }
    ensures { IfOk result (λ repo. repo ≡ along.annotated_by (bare_repo_of main)) }
{
    linked_bodies_keep_to_ranges();
    let body = stated_main(alloc, main)?;
    let mut functions = Seq::new(alloc);
    functions.push(body)?;
    let repo = Repo::new(alloc, functions, Seq::new(alloc))?;
    Ok(repo)
}
