//! The top call: words and bytes in, a status and bytes out.

ghost use Rattle.std.specs.Prelude.{◌≡◌, ◌≢◌, ◌⊎◌, ◌≤◌, ◌<◌, ◌+◌, ◌^◌, ℕ, true, List, [], Ok, Err, None, IfSome, IfOk, MatchResult, OnOk, length};
ghost use Rattle.std.specs.Io.KnownBytes.{IsAtEnd};
ghost use Rattle.hh_io.specs.Counts.{Rose};
ghost use Rattle.hh_io.specs.Sources.{IsLonger, IsWithin, ReadsPerByte};
ghost use Rattle.hh_io.specs.Sinks.{Takes, TakesPart};
ghost use Rattle.hhas_read.specs.LinkedTexts.{IsReadFault};
ghost use Rattle.hhbc_repo.specs.Linked.{Linked};
ghost use Rattle.hhbc_repo.specs.Shapes.{Types};
ghost use Rattle.hhbc_repo.specs.Spelled.{HasSpelling};
ghost use Rattle.hhbc_semantics.specs.Truth.{IsNeverStuck};
ghost use Rattle.func_analyze.specs.Chain.{annotated_by};
ghost use Rattle.stack_verify.specs.Verified.{IsRefused};
ghost use Rattle.hhbbc_top.specs.Answer as answers;
ghost use Rattle.hhbbc_top.specs.Commands as commands;
ghost use Rattle.hhbbc_top.specs.Forms.{bare_repo_of, setting_of};
ghost use Rattle.hhbbc_top.specs.Words.{command_of};

use crate::annotation::annotated;
use crate::counts::counts_line;
use crate::fault_lines::{link_fault_line, shape_fault_line, text_fault_line};
use crate::form::{Main, Unfit, main_of};
use crate::machine::{Ending, run};
use crate::report::report_of;
use crate::status::{Status, line_of};
use crate::words::{Command, command_of};
use func_analyze::{
    annotated_has_spelling, bare_chain_annotates, second_is_faithful, second_is_unique,
};
use hack_values::{NoMemory, Text};
use hh_io::{ReadError, Sink, Source, read_all, write_all};
use hhas_read::{
    ReadFault, canonical_texts_are_read_back, first_fault_is_one, read_text,
    text_spells_one_repository,
};
use hhas_write::write_text;
use hhbc_repo::Repo;
use hhbc_semantics::second_form_never_sticks;
use stack_verify::{VerifyFault, verify};
use std::alloc::Global;

/// What is to be written where a command did its work.
#[derive(Drop)]
pub enum Answer {
    /// A text for standard output.
    Text(Text),
    /// The status of a run, or of a text that has a fault, and its line for standard error.
    Line(Status, Text),
}

/// All that the program does: `words` are the words behind its name. The text comes from `source`,
/// the annotated text goes to `out`, and the line of a status to `err`. Where a write fails the status is
/// WriteFault, whatever came before. NoMemory may come wherever a text is read; its line takes no memory.
pub fn hhbbc<S: Source, K: Sink, E: Sink>(
    alloc: Global,
    words: &[Text],
    source: &mut S,
    out: &mut K,
    err: &mut E,
) -> Status
    ensures usage { result ≡ Status.Usage → command_of words.now ≡ None }
    ensures other_words { command_of words.now ≡ None → (source.new ≡ source.old) × ((result ≡ Status.Usage) ⊎ (result ≡ Status.WriteFault)) }
    ensures read_fault { result ≡ Status.ReadFault → Rose (S.faults source.old) (S.faults source.new) }
    ensures too_long { result ≡ Status.TooLong → IsLonger (S.left source.old) (answers.read_limit (command_of words.now)) }
    ensures bad_text { result ≡ Status.BadText → IsAtEnd (S.left source.new) × IsWithin (S.left source.old) (answers.read_limit (command_of words.now)) × IfSome (S.left source.old) answers.HasTextFault }
    ensures bad_link { result ≡ Status.BadLink → IsAtEnd (S.left source.new) × IsWithin (S.left source.old) (answers.read_limit (command_of words.now)) × IfSome (S.left source.old) answers.HasLinkFault }
    ensures bad_shape { result ≡ Status.BadShape → IsAtEnd (S.left source.new) × IsWithin (S.left source.old) (answers.read_limit (command_of words.now)) × IfSome (S.left source.old) (answers.IsMisshapenText (command_of words.now)) }
    ensures not_yet { result ≡ Status.NotYet → IsAtEnd (S.left source.new) × IsWithin (S.left source.old) (answers.read_limit (command_of words.now)) × IfSome (S.left source.old) (answers.IsUnservedText (command_of words.now)) }
    ensures no_memory { result ≡ Status.NoMemory → out.new ≡ out.old }
    ensures write_fault { result ≡ Status.WriteFault → Rose (K.faults out.old) (K.faults out.new) ⊎ Rose (E.faults err.old) (E.faults err.new) }

    // All that is to be written was taken, or a part of it: standard output first, and then the line.
    ensures all { result ≢ Status.WriteFault → answers.WritesAll (answers.IsAnswer words.now (S.left source.old) (S.left source.new) (S.faults source.old) (S.faults source.new)) result (K.taken out.old) (K.taken out.new) (E.taken err.old) (E.taken err.new) }
    ensures part { result ≡ Status.WriteFault → answers.WritesPartOf (answers.IsAnswer words.now (S.left source.old) (S.left source.new) (S.faults source.old) (S.faults source.new)) (K.taken out.old) (K.taken out.new) (E.taken err.old) (E.taken err.new) }
    ensures kept { result ≢ Status.WriteFault → (K.faults out.new ≡ K.faults out.old) × (E.faults err.new ≡ E.faults err.old) }
    ensures accepts { answers.Accepts words.now (S.left source.old) result }

    ensures later { S.reads source.old ≤ S.reads source.new }
    ensures reads { S.reads source.new ≤ S.reads source.old + answers.read_limit (command_of words.now) + 2 }
    ensures reads_told { ReadsPerByte (S.left source.old) (S.left source.new) (S.reads source.old) (S.reads source.new) }
{
    text_spells_one_repository();
    first_fault_is_one();
    let answer = answer_for(alloc, words, source);
    deliver(out, err, answer)
}

/// What is to be written, or the status in its place.
fn answer_for<S: Source>(alloc: Global, words: &[Text], source: &mut S) -> Result<Answer, Status>
    ensures answer { answers.IsAnswer words.now (S.left source.old) (S.left source.new) (S.faults source.old) (S.faults source.new) (answers.status_of result) (answers.out_of result) (answers.line_to result) }
    ensures other_words { command_of words.now ≡ None → (source.new ≡ source.old) × (result ≡ Err Status.Usage) }
    ensures later { S.reads source.old ≤ S.reads source.new }
    ensures reads { S.reads source.new ≤ S.reads source.old + answers.read_limit (command_of words.now) + 2 }
    ensures reads_told { ReadsPerByte (S.left source.old) (S.left source.new) (S.reads source.old) (S.reads source.new) }
{
    match command_of(words) {
        Some(command) => obey(alloc, command, source),
        None => Err(Status::Usage),
    }
}

/// The most bytes that a command takes.
fn limit_of(command: Command) -> u32
    ensures { result ≡ answers.limit_of command }
{
    match command {
        Command::Check | Command::Format => 134_217_728,
        Command::Analyze => 16_777_216,
        Command::Run(_, _) => 134_217_728,
    }
}

/// Reads the source, and does with its text what the command says.
fn obey<S: Source>(alloc: Global, command: Command, source: &mut S) -> Result<Answer, Status>
    ensures answer { answers.Obeys command (S.left source.old) (S.left source.new) (S.faults source.old) (S.faults source.new) (answers.status_of result) (answers.out_of result) (answers.line_to result) }
    ensures later { S.reads source.old ≤ S.reads source.new }
    ensures reads { S.reads source.new ≤ S.reads source.old + answers.limit_of command + 2 }
    ensures reads_told { ReadsPerByte (S.left source.old) (S.left source.new) (S.reads source.old) (S.reads source.new) }
{
    match read_all(alloc, source, limit_of(command)) {
        Ok(text) => answer_to(alloc, command, &text),
        Err(ReadError::ReadFailed) => Err(Status::ReadFault),
        Err(ReadError::TooLong) => Err(Status::TooLong),
        Err(ReadError::NoMemory) => Err(Status::NoMemory),
    }
}

/// What a command answers to a text.
fn answer_to(alloc: Global, command: Command, text: &Text) -> Result<Answer, Status>
    requires { length text.now < 2 ^ 32 }
    ensures { commands.AnswersTo command text.now (answers.status_of result) (answers.out_of result) (answers.line_to result) }
{
    bare_chain_annotates();
    second_is_faithful();
    second_is_unique();
    annotated_has_spelling();
    text_spells_one_repository();
    canonical_texts_are_read_back();
    match read_text(alloc, text) {
        Ok(repo) => judged(alloc, command, repo),
        Err(fault) => fault_told(alloc, fault),
    }
}

/// The answer of a text that gives no repository.
#[tactic(auto, using(crate::proofs::Headline::text_told, crate::proofs::Headline::link_told))]
fn fault_told(alloc: Global, fault: ReadFault) -> Result<Answer, Status>
    ensures { (c : Command) (bytes : List ℕ) → IsReadFault bytes fault → commands.AnswersTo c bytes (answers.status_of result) (answers.out_of result) (answers.line_to result) }
{
    match fault {
        ReadFault::TextFault(at) => told(Status::BadText, text_fault_line(alloc, at)),
        ReadFault::LinkFault(fault) => told(Status::BadLink, link_fault_line(alloc, &fault)),
        ReadFault::NoMemory => Err(Status::NoMemory),
    }
}

/// The answer of a text that has a fault.
fn told(status: Status, line: Result<Text, NoMemory>) -> Result<Answer, Status>
    ensures { result ≡ answers.told status line }
{
    match line {
        Ok(line) => Ok(Answer::Line(status, line)),
        Err(NoMemory) => Err(Status::NoMemory),
    }
}

/// Whether a command asks that the repository keeps to its shapes.
fn verifies(command: Command) -> bool
    ensures { result ≡ answers.verifies command }
{
    !matches!(command, Command::Format)
}

/// What a command makes of the repository of a text.
#[tactic(auto, using(crate::proofs::Headline::unverified_as))]
fn judged(alloc: Global, command: Command, repo: Repo) -> Result<Answer, Status>
    ensures { commands.Judges command repo result }
{
    if verifies(command) {
        verified(alloc, command, repo)
    } else {
        served(alloc, command, &repo)
    }
}

/// The same, of a command that verifies it.
fn verified(alloc: Global, command: Command, repo: Repo) -> Result<Answer, Status>
    requires { answers.verifies command ≡ true }
    ensures { commands.Judges command repo result }
{
    match verify(alloc, repo) {
        Ok(verified) => served(alloc, command, verified.repo()),
        Err(fault) => shape_told(alloc, fault),
    }
}

/// The answer of a text whose repository doesn't keep to its shapes.
#[tactic(auto, using(crate::proofs::Headline::within_bodies, crate::proofs::Headline::refused_as))]
fn shape_told(alloc: Global, fault: VerifyFault) -> Result<Answer, Status>
    requires { (r : Linked) × IsRefused r fault }
    ensures { (c : Command) (r : Linked) → answers.verifies c ≡ true → IsRefused r fault → commands.Judges c r result }
{
    match fault {
        VerifyFault::Shape(shape, repo) => {
            told(Status::BadShape, shape_fault_line(alloc, &repo, shape))
        }
        VerifyFault::NoMemory => Err(Status::NoMemory),
    }
}

/// What a command makes of a repository, which keeps to its shapes where the command asks that.
fn served(alloc: Global, command: Command, repo: &Repo) -> Result<Answer, Status>
    requires { answers.verifies command ≡ true → Types repo.now }
    ensures { commands.Serves command repo.now result }
{
    match command {
        Command::Check => checked(alloc, repo),
        Command::Format => formatted(alloc, repo),
        Command::Analyze => analyzed(alloc, repo),
        Command::Run(steps, asserted) => main_run(alloc, repo, steps, asserted),
    }
}

/// How much there is in a repository.
fn checked(alloc: Global, repo: &Repo) -> Result<Answer, Status>
    ensures { commands.Serves Command.Check repo.now result }
{
    match counts_line(alloc, repo) {
        Ok(line) => Ok(Answer::Text(line)),
        Err(NoMemory) => Err(Status::NoMemory),
    }
}

/// A repository in the canonical form.
fn formatted(alloc: Global, repo: &Repo) -> Result<Answer, Status>
    ensures { commands.Serves Command.Format repo.now result }
{
    match write_text(alloc, repo) {
        Ok(text) => Ok(Answer::Text(text)),
        Err(NoMemory) => Err(Status::NoMemory),
    }
}

/// The status of a repository that isn't gone on with.
fn status_of(unfit: Unfit) -> Status
    ensures { result ≡ answers.status_of_unfit unfit }
{
    match unfit {
        Unfit::OtherForm => Status::NotYet,
        Unfit::NoMemory => Status::NoMemory,
    }
}

/// The annotated text of a repository.
fn analyzed(alloc: Global, repo: &Repo) -> Result<Answer, Status>
    requires { Types repo.now }
    ensures { commands.Serves Command.Analyze repo.now result }
{
    repo.has_spelling();
    annotated_has_spelling();
    match main_of(alloc, repo) {
        Ok(main) => written(alloc, main),
        Err(unfit) => Err(status_of(unfit)),
    }
}

/// How the function of a repository runs.
fn main_run(alloc: Global, repo: &Repo, steps: u32, asserted: bool) -> Result<Answer, Status>
    requires { Types repo.now }
    ensures { commands.Serves (Command.Run steps asserted) repo.now result }
{
    second_form_never_sticks();
    match main_of(alloc, repo) {
        Ok(main) => reported(alloc, &main, steps, asserted),
        Err(unfit) => Err(status_of(unfit)),
    }
}

/// The annotated text of a function.
fn written(alloc: Global, main: Main) -> Result<Answer, Status>
    requires { HasSpelling (annotated_by (bare_repo_of main)) }
    ensures { commands.Does Command.Analyze main result }
{
    let Ok(repo) = annotated(alloc, main) else {
        return Err(Status::NoMemory);
    };
    match write_text(alloc, &repo) {
        Ok(text) => Ok(Answer::Text(text)),
        Err(NoMemory) => Err(Status::NoMemory),
    }
}

/// How a function runs.
fn reported(alloc: Global, main: &Main, steps: u32, asserted: bool) -> Result<Answer, Status>
    requires { IsNeverStuck (setting_of main.now) }
    ensures { commands.Does (Command.Run steps asserted) main.now result }
{
    let Ok(ending) = run(alloc, main, steps, asserted) else {
        return Err(Status::NoMemory);
    };
    match report_of(alloc, main, ending) {
        Ok(report) => Ok(Answer::Line(report.status, report.line)),
        Err(NoMemory) => Err(Status::NoMemory),
    }
}

/// Writes an answer: first what goes to standard output, then the line of its status.
fn deliver<K: Sink, E: Sink>(out: &mut K, err: &mut E, answer: Result<Answer, Status>) -> Status
    requires { answers.status_of answer ≢ Status.WriteFault }
    ensures status { result ≢ Status.WriteFault → result ≡ answers.status_of answer }
    ensures all { result ≢ Status.WriteFault → Takes (K.taken out.old) (K.taken out.new) (answers.out_of answer) × Takes (E.taken err.old) (E.taken err.new) (answers.line_to answer) }
    ensures part { result ≡ Status.WriteFault → answers.WritesPart (K.taken out.old) (K.taken out.new) (E.taken err.old) (E.taken err.new) (answers.out_of answer) (answers.line_to answer) }
    ensures cause { result ≡ Status.WriteFault → Rose (K.faults out.old) (K.faults out.new) ⊎ Rose (E.faults err.old) (E.faults err.new) }
    ensures kept { result ≢ Status.WriteFault → (K.faults out.new ≡ K.faults out.old) × (E.faults err.new ≡ E.faults err.old) }
    ensures untouched { answers.status_of answer ≢ Status.Done → out.new ≡ out.old }
{
    match answer {
        Ok(Answer::Text(text)) => {
            if write_all(out, text.bytes()).is_ok() {
                finish(err, Status::Done)
            } else {
                Status::WriteFault
            }
        }
        Ok(Answer::Line(status, line)) => write_line(err, line.bytes(), status),
        Err(status) => finish(err, status),
    }
}

/// Writes the line of a status that no run ends with, and answers the status, or WriteFault where that failed.
pub fn finish<E: Sink>(err: &mut E, status: Status) -> Status
    requires { status ≢ Status.WriteFault }
    ensures status { result ≢ Status.WriteFault → result ≡ status }
    ensures all { result ≢ Status.WriteFault → Takes (E.taken err.old) (E.taken err.new) (answers.line_of status) }
    ensures part { result ≡ Status.WriteFault → TakesPart (E.taken err.old) (E.taken err.new) (answers.line_of status) }
    ensures cause { result ≡ Status.WriteFault → Rose (E.faults err.old) (E.faults err.new) }
    ensures kept { result ≢ Status.WriteFault → E.faults err.new ≡ E.faults err.old }
{
    write_line(err, line_of(status), status)
}

fn write_line<E: Sink>(err: &mut E, line: &[u8], status: Status) -> Status
    requires { status ≢ Status.WriteFault }
    ensures status { result ≢ Status.WriteFault → result ≡ status }
    ensures all { result ≢ Status.WriteFault → Takes (E.taken err.old) (E.taken err.new) line.now }
    ensures part { result ≡ Status.WriteFault → TakesPart (E.taken err.old) (E.taken err.new) line.now }
    ensures cause { result ≡ Status.WriteFault → Rose (E.faults err.old) (E.faults err.new) }
    ensures kept { result ≢ Status.WriteFault → E.faults err.new ≡ E.faults err.old }
{
    if write_all(err, line).is_ok() {
        status
    } else {
        Status::WriteFault
    }
}
