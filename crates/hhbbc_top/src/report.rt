//! What the program says of a run that ended.

ghost use Rattle.std.specs.Prelude.{◌≡◌, ◌≢◌, ◌++◌, ◌∷◌, [], IfOk, OnOk, codes};
ghost use Rattle.std.specs.Fmt.{decimal};
ghost use Rattle.hack_values.specs.Literal.{literal};
ghost use Rattle.hack_values.specs.Show.{show_val};
ghost use Rattle.hack_values.specs.View.{val_of};
ghost use Rattle.hhbbc_top.specs.Forms.{repo_of};
ghost use Rattle.hhbbc_top.specs.Running as running;
ghost use Rattle.hhbbc_top.specs.Report as reports;

use crate::form::Main;
use crate::machine::{Ending, Value};
use crate::status::Status;
use hack_values::{Cell, NoMemory, Text, show};
use std::alloc::Global;

/// The status of a run, and its line.
#[derive(Drop)]
pub struct Report {
    pub status: Status,
    pub line: Text,
}

fn cell(value: Value) -> Cell
    ensures { result ≡ running.cell_of value }
{
    match value {
        Value::Null => Cell::Null,
        Value::Bool(yes) => Cell::Bool(yes),
        Value::Int(number) => Cell::Int(number),
    }
}

/// Adds the name of the one body, a place in it, and the end of the line.
fn push_place(alloc: Global, out: &mut Text, position: usize) -> Result<(), NoMemory>
    ensures { OnOk result (out.new ≡ out.old ++ (codes "main@" ++ (decimal position ++ 10 ∷ []))) }
{
    let digits = format!(in alloc; "{position}")?;
    out.append(b"main@")?;
    out.append(digits.as_bytes())?;
    out.append(b"\n")
}

fn returned(alloc: Global, value: Value) -> Result<Text, NoMemory>
    ensures { IfOk result (λ line. line ≡ codes "returned " ++ (show_val (val_of (running.cell_of value)) ++ 10 ∷ [])) }
{
    let shown = show(alloc, &cell(value))?;
    let mut line = Text::from_bytes(alloc, b"returned ")?;
    line.append(shown.bytes())?;
    line.append(b"\n")?;
    Ok(line)
}

/// The message of the exception that a local isn't set, as a string literal.
fn message(alloc: Global, locals: &[Text], local: u8) -> Result<Text, NoMemory>
    ensures { IfOk result (λ text. text ≡ literal (running.undefined locals.now local)) }
{
    let mut message = Text::from_bytes(alloc, b"undefined $")?;
    if let Some(name) = locals.get(local as usize) {
        message.append(name.bytes())?;
    }
    show(alloc, &Cell::Str(message))
}

fn undefined(alloc: Global, locals: &[Text], local: u8, position: usize) -> Result<Text, NoMemory>
    ensures { IfOk result (λ line. line ≡ codes "uncaught UndefinedVariableException " ++ (literal (running.undefined locals.now local) ++ (codes " at " ++ (codes "main@" ++ (decimal position ++ 10 ∷ []))))) }
{
    let message = message(alloc, locals, local)?;
    let mut line = Text::from_bytes(alloc, b"uncaught UndefinedVariableException ")?;
    line.append(message.bytes())?;
    line.append(b" at ")?;
    push_place(alloc, &mut line, position)?;
    Ok(line)
}

fn assert_false(alloc: Global, position: usize) -> Result<Text, NoMemory>
    ensures { IfOk result (λ line. line ≡ codes "assert false at " ++ (codes "main@" ++ (decimal position ++ 10 ∷ []))) }
{
    let mut line = Text::from_bytes(alloc, b"assert false at ")?;
    push_place(alloc, &mut line, position)?;
    Ok(line)
}

/// The status of a run of the function that ended so, and its line.
pub fn report_of(alloc: Global, main: &Main, ending: Ending) -> Result<Report, NoMemory>
    requires { ending ≢ Ending.Stuck }
    ensures status { IfOk result (λ r. reports.HasStatus (running.outcome_of main.now.locals ending) r.status) }
    ensures line { IfOk result (λ r. r.line ≡ reports.run_line (repo_of main.now) (running.outcome_of main.now.locals ending)) }
{
    let locals = main.locals.as_slice();
    match ending {
        Ending::Returned(value) => Ok(Report {
            status: Status::Done,
            line: returned(alloc, value)?,
        }),
        Ending::Undefined(local, position) => Ok(Report {
            status: Status::Uncaught,
            line: undefined(alloc, locals, local, position)?,
        }),
        Ending::AssertFalse(position) => Ok(Report {
            status: Status::AssertFalse,
            line: assert_false(alloc, position)?,
        }),
        Ending::StepsSpent => Ok(Report {
            status: Status::StepsSpent,
            line: Text::from_bytes(alloc, b"steps spent\n")?,
        }),
        Ending::Stuck => unreachable!(),
    }
}
