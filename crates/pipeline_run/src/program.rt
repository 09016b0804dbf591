// A whole run.
ghost use Rattle.std.specs.Prelude.{◌≡◌, ◌⊎◌, ◌≤◌, ◌+◌, ℕ, List, Option, Some, Ok, map, length, string_bytes, IfOk, IfErr, OnErr};
ghost use Rattle.disk_model.specs.declared.disk.Side.TheVariants.{Left, Right};
ghost use Rattle.disk_model.specs.Disk.{IsHonest, file};
ghost use Rattle.disk_model.specs.Faults.{Rose};
ghost use Rattle.landing_core.specs.Folders.{HoldsPresent};
ghost use Rattle.commit_gate.specs.AtRest.{LeavesFile};
ghost use Rattle.store_core.specs.Ours.{IsOurs};
ghost use Rattle.store_core.specs.Reach.{IsLogEnd};
ghost use Rattle.store_core.specs.Spared.{IsRefusedFile, IsSpared, LogGoesOn};
ghost use Rattle.table_update.specs.declared.table.AppendTable.{AppendTable};
ghost use Rattle.table_update.specs.Stands.{IsFor, IsStanding};
ghost use Rattle.type_check.specs.Rules.{Checked, OnRefused, broken_at};
ghost use Rattle.pipeline_run.specs.Command.{commands_of};
ghost use Rattle.pipeline_run.specs.Crash.{KeepsStore, HasOutcome, HasExecuted, HasRunAll, HasRun};
ghost use Rattle.pipeline_run.specs.Pipeline.{text_limit, HasPlan, HasStatements, Knows};
ghost use Rattle.pipeline_run.specs.Report.{status_of};
ghost use Rattle.pipeline_run.specs.Run.{Around, Counts, RunState, Tells, IsTelling, IsOfCommand, IsOfStatements, IsOfCommands, PrintsOn, SaysShrunk, AnswersUsage};
ghost use Rattle.pipeline_run.specs.Table.{AskFor, AsksFor, IsUpdatable, plan_of};

use crate::command::{Command, commands};
use crate::outcome::{Outcome, Status};
use crate::pipeline::{Unread, statements};
use crate::report::{line, status};
use crate::table::{name_of, table_of};
use disk_model::{Disk, Sink, SinkFault, Source};
use landing_core::Landing;
use plan_core::Plan;
use sql_tokens::SqlRefusal;
use sql_tree::Statements;
use std::alloc::{AllocError, Global};
use table_update::{UpdateEnd, update};
use type_check::{CheckRefusal, check, checked_tables_keep_text};

/// Prints the line of an outcome, if it has one, and answers its status.
fn tell<S: Sink>(alloc: Global, out: &mut S, outcome: &Outcome) -> Status
    // Whatever the file and the other devices are.
    ensures tells { S.tells → (file_before file_now : List ℕ) (before now : Counts) → before.sink ≡ S.faults out.old → now.sink ≡ S.faults out.new → Tells outcome.now result (record { file = file_before; printed = S.written out.old; faults = before }) (record { file = file_now; printed = S.written out.new; faults = now }) }
    ensures later { S.faults out.old ≤ S.faults out.new }
    ensures sink_fault { result ≡ Status.Sink → Rose (S.faults out.old) (S.faults out.new) }
    ensures status { IsTelling outcome.now result }
{
    let Ok(line) = line(alloc, outcome) else {
        return Status::Memory;
    };
    if line.is_empty() {
        return status(outcome);
    }
    match out.write(line.as_slice()) {
        Ok(()) => status(outcome),
        Err(SinkFault::Failed) => Status::Sink,
        Err(SinkFault::Memory) => Status::Memory,
    }
}

/// The plan of statements, which is that of a table or of none, or the first check that they break.
fn checked(alloc: Global, statements: &Statements) -> Result<Plan, CheckRefusal>
    ensures plan { IfOk result (λ plan. Checked statements.now (Ok plan)) }
    ensures updatable { IfOk result (λ plan. IsUpdatable plan) }
    ensures refused { IfErr result (λ end. OnRefused end (λ at fault. Checked statements.now (broken_at at fault))) }
{
    checked_tables_keep_text();
    check(alloc, statements)
}

/// What an update of a plan comes to.
fn updated<D: Disk, L: Landing>(
    alloc: Global,
    plan: &Plan,
    disk: &mut D,
    landing: &mut L,
) -> Result<Outcome, AllocError>
    requires honest { D.tells → IsHonest (D.state disk.old) }
    requires updatable { IsUpdatable plan.now }
    ensures comes { D.tells → L.tells → (text : List ℕ) → HasPlan text plan.now → IfOk result (λ outcome. HasOutcome D.tells_moments Command.Update (record { text = text; room = D.room disk.old; landing = L.present landing.old }) outcome (D.state disk.old) (D.state disk.new)) }
    ensures err { OnErr result (disk.new ≡ disk.old) }
    ensures store { D.tells → (disk.new ≡ disk.old) ⊎ KeepsStore D.tells_moments (D.room disk.old) (D.state disk.old) (D.state disk.new) }
    ensures ours { D.tells → IsOurs (D.state disk.old) → IsOurs (D.state disk.new) }
    ensures stands { D.tells → L.tells → (asked : AppendTable) → ((table : Option AppendTable) → plan.now ≡ plan_of table → IsFor table asked) → HoldsPresent (L.present landing.old) (L.ever landing.old) → IsStanding asked (L.ever landing.old) (D.state disk.old) → IsStanding asked (L.ever landing.old) (D.state disk.new) }
    ensures honest { D.tells → IsHonest (D.state disk.new) }
    ensures kept { D.tells → LeavesFile Right (D.state disk.old) (D.state disk.new) }
    ensures room { D.room disk.new ≡ D.room disk.old }
    ensures disk_later { D.faults disk.old ≤ D.faults disk.new }
    ensures landing_later { L.faults landing.old ≤ L.faults landing.new }
    ensures present { L.tells → L.present landing.new ≡ L.present landing.old }
    ensures ever { L.tells → L.ever landing.new ≡ L.ever landing.old }
    ensures own { IfOk result IsOfStatements }
    ensures load_fault { (table : Option (List ℕ)) → result ≡ Ok (Outcome.Updated table UpdateEnd.LoadFailed) → Rose (D.faults disk.old) (D.faults disk.new) }
    ensures commit_fault { (table : Option (List ℕ)) → result ≡ Ok (Outcome.Updated table UpdateEnd.CommitFailed) → Rose (D.faults disk.old) (D.faults disk.new) }
    ensures landing_fault { (table : Option (List ℕ)) → result ≡ Ok (Outcome.Updated table UpdateEnd.LandingFailed) → Rose (L.faults landing.old) (L.faults landing.new) }
    ensures shrunk_of { (table : Option (List ℕ)) (file : List ℕ) (cursor size : ℕ) → result ≡ Ok (Outcome.Updated table (UpdateEnd.Shrunk file cursor size)) → (name : List ℕ) × (table ≡ Some name) }
{
    let table = table_of(alloc, plan)?;
    let name = name_of(alloc, &table)?;
    let end = update(alloc, disk, landing, table.as_ref());
    Ok(Outcome::Updated { table: name, end })
}

/// What a command comes to with these statements of the text.
fn outcome_by<D: Disk, L: Landing>(
    alloc: Global,
    command: Command,
    statements: &Statements,
    disk: &mut D,
    landing: &mut L,
) -> Result<Outcome, AllocError>
    requires honest { D.tells → IsHonest (D.state disk.old) }
    ensures comes { D.tells → L.tells → (text : List ℕ) → HasStatements text statements.now → IfOk result (λ outcome. HasOutcome D.tells_moments command (record { text = text; room = D.room disk.old; landing = L.present landing.old }) outcome (D.state disk.old) (D.state disk.new)) }
    ensures err { OnErr result (disk.new ≡ disk.old) }
    ensures store { D.tells → (disk.new ≡ disk.old) ⊎ KeepsStore D.tells_moments (D.room disk.old) (D.state disk.old) (D.state disk.new) }
    ensures ours { D.tells → IsOurs (D.state disk.old) → IsOurs (D.state disk.new) }
    ensures stands { D.tells → L.tells → (asked : AppendTable) → AskFor statements.now asked → HoldsPresent (L.present landing.old) (L.ever landing.old) → IsStanding asked (L.ever landing.old) (D.state disk.old) → IsStanding asked (L.ever landing.old) (D.state disk.new) }
    ensures honest { D.tells → IsHonest (D.state disk.new) }
    ensures kept { D.tells → LeavesFile Right (D.state disk.old) (D.state disk.new) }
    ensures room { D.room disk.new ≡ D.room disk.old }
    ensures disk_later { D.faults disk.old ≤ D.faults disk.new }
    ensures landing_later { L.faults landing.old ≤ L.faults landing.new }
    ensures present { L.tells → L.present landing.new ≡ L.present landing.old }
    ensures ever { L.tells → L.ever landing.new ≡ L.ever landing.old }
    ensures own { IfOk result IsOfStatements }
    ensures load_fault { (table : Option (List ℕ)) → result ≡ Ok (Outcome.Updated table UpdateEnd.LoadFailed) → Rose (D.faults disk.old) (D.faults disk.new) }
    ensures commit_fault { (table : Option (List ℕ)) → result ≡ Ok (Outcome.Updated table UpdateEnd.CommitFailed) → Rose (D.faults disk.old) (D.faults disk.new) }
    ensures landing_fault { (table : Option (List ℕ)) → result ≡ Ok (Outcome.Updated table UpdateEnd.LandingFailed) → Rose (L.faults landing.old) (L.faults landing.new) }
    ensures shrunk_of { (table : Option (List ℕ)) (file : List ℕ) (cursor size : ℕ) → result ≡ Ok (Outcome.Updated table (UpdateEnd.Shrunk file cursor size)) → (name : List ℕ) × (table ≡ Some name) }
{
    let plan = match checked(alloc, statements) {
        Ok(plan) => plan,
        Err(CheckRefusal::Refused { statement, fault }) => {
            return Ok(Outcome::Broken { statement, fault });
        }
        Err(CheckRefusal::Memory) => return Err(AllocError),
    };
    match command {
        Command::Validate => Ok(Outcome::Valid(plan)),
        Command::Update => updated(alloc, &plan, disk, landing),
    }
}

/// What a command comes to. It reads the text where no command before it has.
fn outcome_of<T: Source, D: Disk, L: Landing>(
    alloc: Global,
    command: Command,
    text: &mut T,
    known: &mut Option<Statements>,
    disk: &mut D,
    landing: &mut L,
) -> Result<Outcome, AllocError>
    requires honest { D.tells → IsHonest (D.state disk.old) }
    // Whatever the text of the run is.
    ensures comes { T.tells → D.tells → L.tells → (whole : List ℕ) → Knows whole known.old (T.left text.old) → IfOk result (λ outcome. HasOutcome D.tells_moments command (record { text = whole; room = D.room disk.old; landing = L.present landing.old }) outcome (D.state disk.old) (D.state disk.new)) }
    ensures knows { T.tells → (whole : List ℕ) → Knows whole known.old (T.left text.old) → IfOk result (λ outcome. status_of outcome ≡ Status.Ok → Knows whole known.new (T.left text.new)) }
    ensures amount { T.tells → (whole : List ℕ) → Knows whole known.old (T.left text.old) → length whole ≤ length (T.left text.old) + text_limit → length whole ≤ length (T.left text.new) + text_limit }
    ensures err { OnErr result (disk.new ≡ disk.old) }
    ensures store { D.tells → (disk.new ≡ disk.old) ⊎ KeepsStore D.tells_moments (D.room disk.old) (D.state disk.old) (D.state disk.new) }
    ensures ours { D.tells → IsOurs (D.state disk.old) → IsOurs (D.state disk.new) }
    ensures stands { T.tells → D.tells → L.tells → (whole : List ℕ) → Knows whole known.old (T.left text.old) → (asked : AppendTable) → AsksFor whole asked → HoldsPresent (L.present landing.old) (L.ever landing.old) → IsStanding asked (L.ever landing.old) (D.state disk.old) → IsStanding asked (L.ever landing.old) (D.state disk.new) }
    ensures honest { D.tells → IsHonest (D.state disk.new) }
    ensures kept { D.tells → LeavesFile Right (D.state disk.old) (D.state disk.new) }
    ensures room { D.room disk.new ≡ D.room disk.old }
    ensures text_later { T.faults text.old ≤ T.faults text.new }
    ensures disk_later { D.faults disk.old ≤ D.faults disk.new }
    ensures landing_later { L.faults landing.old ≤ L.faults landing.new }
    ensures present { L.tells → L.present landing.new ≡ L.present landing.old }
    ensures ever { L.tells → L.ever landing.new ≡ L.ever landing.old }
    ensures own { IfOk result IsOfCommand }
    ensures text_fault { result ≡ Ok Outcome.TextFailed → Rose (T.faults text.old) (T.faults text.new) }
    ensures load_fault { (table : Option (List ℕ)) → result ≡ Ok (Outcome.Updated table UpdateEnd.LoadFailed) → Rose (D.faults disk.old) (D.faults disk.new) }
    ensures commit_fault { (table : Option (List ℕ)) → result ≡ Ok (Outcome.Updated table UpdateEnd.CommitFailed) → Rose (D.faults disk.old) (D.faults disk.new) }
    ensures landing_fault { (table : Option (List ℕ)) → result ≡ Ok (Outcome.Updated table UpdateEnd.LandingFailed) → Rose (L.faults landing.old) (L.faults landing.new) }
    ensures shrunk_of { (table : Option (List ℕ)) (file : List ℕ) (cursor size : ℕ) → result ≡ Ok (Outcome.Updated table (UpdateEnd.Shrunk file cursor size)) → (name : List ℕ) × (table ≡ Some name) }
{
    let statements = match statements(alloc, text, known.take()) {
        Ok(statements) => statements,
        Err(Unread::Failed) => return Ok(Outcome::TextFailed),
        Err(Unread::Refused(SqlRefusal::Memory)) => return Err(AllocError),
        Err(Unread::Refused(refusal)) => return Ok(Outcome::Refused(refusal)),
    };
    let outcome = outcome_by(alloc, command, &statements, disk, landing);
    *known = Some(statements);
    outcome
}

/// Executes one command.
fn execute<T: Source, D: Disk, L: Landing, S: Sink>(
    alloc: Global,
    command: Command,
    text: &mut T,
    known: &mut Option<Statements>,
    disk: &mut D,
    landing: &mut L,
    out: &mut S,
) -> Status
    requires honest { D.tells → IsHonest (D.state disk.old) }
    // Whatever the text of the run is.
    ensures executes { T.tells → D.tells → L.tells → S.tells → (whole : List ℕ) → Knows whole known.old (T.left text.old) → HasExecuted D.tells_moments command (record { text = whole; room = D.room disk.old; landing = L.present landing.old }) result
        (record { file = (D.state disk.old).now.left; printed = S.written out.old; faults = record { text = T.faults text.old; disk = D.faults disk.old; landing = L.faults landing.old; sink = S.faults out.old } })
        (record { file = (D.state disk.new).now.left; printed = S.written out.new; faults = record { text = T.faults text.new; disk = D.faults disk.new; landing = L.faults landing.new; sink = S.faults out.new } })
        (D.state disk.old) (D.state disk.new) }
    ensures knows { T.tells → (whole : List ℕ) → Knows whole known.old (T.left text.old) → result ≡ Status.Ok → Knows whole known.new (T.left text.new) }
    ensures amount { T.tells → (whole : List ℕ) → Knows whole known.old (T.left text.old) → length whole ≤ length (T.left text.old) + text_limit → length whole ≤ length (T.left text.new) + text_limit }
    ensures store { D.tells → KeepsStore D.tells_moments (D.room disk.old) (D.state disk.old) (D.state disk.new) }
    ensures ours { D.tells → IsOurs (D.state disk.old) → IsOurs (D.state disk.new) }
    ensures stands { T.tells → D.tells → L.tells → (whole : List ℕ) → Knows whole known.old (T.left text.old) → (asked : AppendTable) → AsksFor whole asked → HoldsPresent (L.present landing.old) (L.ever landing.old) → IsStanding asked (L.ever landing.old) (D.state disk.old) → IsStanding asked (L.ever landing.old) (D.state disk.new) }
    ensures honest { D.tells → IsHonest (D.state disk.new) }
    ensures kept { D.tells → LeavesFile Right (D.state disk.old) (D.state disk.new) }
    ensures room { D.room disk.new ≡ D.room disk.old }
    ensures present { L.tells → L.present landing.new ≡ L.present landing.old }
    ensures ever { L.tells → L.ever landing.new ≡ L.ever landing.old }
    ensures own { IsOfCommands result }
    ensures text_later { T.faults text.old ≤ T.faults text.new }
    ensures disk_later { D.faults disk.old ≤ D.faults disk.new }
    ensures landing_later { L.faults landing.old ≤ L.faults landing.new }
    ensures sink_later { S.faults out.old ≤ S.faults out.new }
    ensures prints { S.tells → PrintsOn (S.written out.old) (S.written out.new) }
    ensures text_fault { result ≡ Status.Text → Rose (T.faults text.old) (T.faults text.new) }
    ensures disk_fault { result ≡ Status.Disk → Rose (D.faults disk.old) (D.faults disk.new) }
    ensures sink_fault { result ≡ Status.Sink → Rose (S.faults out.old) (S.faults out.new) }
    ensures landing_fault { S.tells → result ≡ Status.Stopped → Rose (L.faults landing.old) (L.faults landing.new) ⊎ SaysShrunk (S.written out.old) (S.written out.new) }
{
    match outcome_of(alloc, command, text, known, disk, landing) {
        Ok(outcome) => tell(alloc, out, &outcome),
        Err(_) => Status::Memory,
    }
}

/// Executes commands in order. The first answer other than Ok ends them.
fn execute_all<T: Source, D: Disk, L: Landing, S: Sink>(
    alloc: Global,
    commands: &[Command],
    text: &mut T,
    disk: &mut D,
    landing: &mut L,
    out: &mut S,
) -> Status
    requires honest { D.tells → IsHonest (D.state disk.old) }
    ensures runs { T.tells → D.tells → L.tells → S.tells → HasRunAll D.tells_moments commands.now (record { text = T.left text.old; room = D.room disk.old; landing = L.present landing.old }) result
        (record { file = (D.state disk.old).now.left; printed = S.written out.old; faults = record { text = T.faults text.old; disk = D.faults disk.old; landing = L.faults landing.old; sink = S.faults out.old } })
        (record { file = (D.state disk.new).now.left; printed = S.written out.new; faults = record { text = T.faults text.new; disk = D.faults disk.new; landing = L.faults landing.new; sink = S.faults out.new } })
        (D.state disk.old) (D.state disk.new) }
    ensures spared { D.tells → IsRefusedFile (D.room disk.old) (file Left (D.state disk.old).now) → IsSpared D.tells_moments (D.state disk.old) (D.state disk.new) }
    ensures goes_on { T.tells → D.tells → L.tells → S.tells → (at : ℕ) → IsLogEnd at (file Left (D.state disk.old).now) → LogGoesOn D.tells_moments at (D.state disk.old) (D.state disk.new) }
    ensures ours { D.tells → IsOurs (D.state disk.old) → IsOurs (D.state disk.new) }
    ensures stands { T.tells → D.tells → L.tells → (asked : AppendTable) → AsksFor (T.left text.old) asked → HoldsPresent (L.present landing.old) (L.ever landing.old) → IsStanding asked (L.ever landing.old) (D.state disk.old) → IsStanding asked (L.ever landing.old) (D.state disk.new) }
    ensures honest { D.tells → IsHonest (D.state disk.new) }
    ensures kept { D.tells → LeavesFile Right (D.state disk.old) (D.state disk.new) }
    ensures present { L.tells → L.present landing.new ≡ L.present landing.old }
    ensures ever { L.tells → L.ever landing.new ≡ L.ever landing.old }
    ensures amount { T.tells → length (T.left text.old) ≤ length (T.left text.new) + text_limit }
    ensures own { IsOfCommands result }
    ensures text_fault { result ≡ Status.Text → Rose (T.faults text.old) (T.faults text.new) }
    ensures disk_fault { result ≡ Status.Disk → Rose (D.faults disk.old) (D.faults disk.new) }
    ensures sink_fault { result ≡ Status.Sink → Rose (S.faults out.old) (S.faults out.new) }
    ensures landing_fault { S.tells → result ≡ Status.Stopped → Rose (L.faults landing.old) (L.faults landing.new) ⊎ SaysShrunk (S.written out.old) (S.written out.new) }
{
    let mut known = None;
    for command in commands {
        let answer = execute(alloc, *command, text, &mut known, disk, landing, out);
        if answer != Status::Ok {
            return answer;
        }
    }
    Status::Ok
}

/// Does what the words ask for, and answers how it ended.
///
/// The words are three paths that aren't empty (the pipeline's text, the store, the landing root), of which the
/// devices are the caller's, and then one or more commands with the word `then` between two of them. `validate`
/// prints a line a dataset: its name, its level and its columns. `update` takes what is new in the folder into the
/// store. A pipeline is built that has no statement or one, a streaming table whose AS selects `*` or plain columns from
/// `read_files` (Databricks SQL reference, CREATE STREAMING TABLE and `read_files`).
///
/// All words are judged first: where they are of no form the answer is Usage. Commands run in order, and the first
/// answer other than Ok ends the run. The text is read once, by the first command, and not past the byte with which
/// it is too long. A text that can't be read is answered by Text, one that has no reading or breaks a check by Pipeline,
/// a store's file that is none, has another dataset or has no room by Store, a landing file that became shorter or a
/// landing that failed by Stopped. Disk and Sink say that the store's file or the output failed, Memory
/// that memory ran out.
pub fn run<D: Disk, L: Landing, T: Source, S: Sink>(
    alloc: Global,
    words: &[String],
    text: &mut T,
    disk: &mut D,
    landing: &mut L,
    out: &mut S,
) -> Status
    requires honest { D.tells → IsHonest (D.state disk.old) }

    // Over devices that tell: what was stored, printed and answered, and what a crash leaves at each moment.
    ensures ran { T.tells → D.tells → L.tells → S.tells → HasRun D.tells_moments (commands_of (map string_bytes words.now)) (record { text = T.left text.old; room = D.room disk.old; landing = L.present landing.old }) result
        (record { file = (D.state disk.old).now.left; printed = S.written out.old; faults = record { text = T.faults text.old; disk = D.faults disk.old; landing = L.faults landing.old; sink = S.faults out.old } })
        (record { file = (D.state disk.new).now.left; printed = S.written out.new; faults = record { text = T.faults text.new; disk = D.faults disk.new; landing = L.faults landing.new; sink = S.faults out.new } })
        (D.state disk.old) (D.state disk.new) }

    // Where whatever a crash leaves of the store stood for the table that the text asks for, so it does after the run; where
    // the text asks for none, for any table.
    ensures stands { T.tells → D.tells → L.tells → (asked : AppendTable) → AsksFor (T.left text.old) asked → HoldsPresent (L.present landing.old) (L.ever landing.old) → IsStanding asked (L.ever landing.old) (D.state disk.old) → IsStanding asked (L.ever landing.old) (D.state disk.new) }

    // A file that is no store's, is damaged or has no room for its first log is spared: neither after the run nor at a
    // moment of it is there an image that wasn't possible before. All that a live log has stays in front, its number too.
    ensures spared { D.tells → IsRefusedFile (D.room disk.old) (file Left (D.state disk.old).now) → IsSpared D.tells_moments (D.state disk.old) (D.state disk.new) }
    ensures goes_on { T.tells → D.tells → L.tells → S.tells → (at : ℕ) → IsLogEnd at (file Left (D.state disk.old).now) → LogGoesOn D.tells_moments at (D.state disk.old) (D.state disk.new) }

    // What a run leaves alone, and how much it reads.
    ensures ours { D.tells → IsOurs (D.state disk.old) → IsOurs (D.state disk.new) }
    ensures honest { D.tells → IsHonest (D.state disk.new) }
    ensures kept { D.tells → LeavesFile Right (D.state disk.old) (D.state disk.new) }
    ensures present { L.tells → L.present landing.new ≡ L.present landing.old }
    ensures ever { L.tells → L.ever landing.new ≡ L.ever landing.old }
    ensures amount { T.tells → length (T.left text.old) ≤ length (T.left text.new) + text_limit }

    // Over any devices: the words alone say whether they are of the form, and an answer that blames a device comes
    // only where its count rose.
    ensures usage { AnswersUsage (commands_of (map string_bytes words.now)) result }
    ensures text_fault { result ≡ Status.Text → Rose (T.faults text.old) (T.faults text.new) }
    ensures disk_fault { result ≡ Status.Disk → Rose (D.faults disk.old) (D.faults disk.new) }
    ensures sink_fault { result ≡ Status.Sink → Rose (S.faults out.old) (S.faults out.new) }
    // An update stops where the landing failed or a file became shorter. The first is answered only where the landing's
    // count rose, and the second is the last line that was printed, where the output tells.
    ensures landing_fault { S.tells → result ≡ Status.Stopped → Rose (L.faults landing.old) (L.faults landing.new) ⊎ SaysShrunk (S.written out.old) (S.written out.new) }
{
    match commands(alloc, words) {
        Ok(Some(commands)) => execute_all(alloc, commands.as_slice(), text, disk, landing, out),
        Ok(None) => tell(alloc, out, &Outcome::Usage),
        Err(_) => Status::Memory,
    }
}
