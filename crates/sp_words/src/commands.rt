//! The commands, as the parser of command lines reads them.

ghost use Rattle.std.specs.Prelude.{◌≡◌, IfOk, IfErr, ◌⊎◌, map, string_bytes, false, []};
ghost use Rattle.clap.specs.Words.{app_of, rule_of, with_rule, with_subcommand, fault_of, kind_of, subcommand_rows_of, subcommand_of};
ghost use Rattle.clap.specs.declared.builder.Command.TheViews.{out-Command};
ghost use Rattle.sp_words.specs.Apps.{place_rule, option_rule, place_app, numbers_app, choices_app, plan_app, act_app, top_app, with_place, tool_app};
ghost use Rattle.sp_words.specs.Jobs.{IsTaken};

use clap::error::ErrorKind;
use clap::{Arg, ArgAction, ArgMatches, Command, Error};
use std::alloc::{AllocError, Global};

/// A word by itself.
fn place<'a>(alloc: Global, id: &'a str) -> Arg<'a>
    ensures rule { rule_of result ≡ place_rule id.entry.now }
    ensures local { result.global ≡ false }
{
    Arg::new(alloc, id).required(true)
}

/// An option that has to be there, with its value.
fn option<'a>(alloc: Global, id: &'a str) -> Arg<'a>
    ensures rule { rule_of result ≡ option_rule id.entry.now }
    ensures local { result.global ≡ false }
{
    Arg::new(alloc, id).long(id).required(true)
}

/// A command with one word by itself.
fn place_command<'a>(alloc: Global, name: &'a str, id: &'a str) -> Result<Command<'a>, AllocError>
    ensures app { IfOk result (λ c. app_of c ≡ place_app name.entry.now id.entry.now) }
    ensures local { IfOk result (λ c. (out-Command c).has_globals ≡ false) }
{
    Command::new(alloc, name).arg(place(alloc, id))
}

/// The command with one more option that has to be there.
fn with_option<'a>(
    alloc: Global,
    command: Command<'a>,
    id: &'a str,
) -> Result<Command<'a>, AllocError>
    requires { (out-Command command).has_globals ≡ false }
    ensures app { IfOk result (λ c. app_of c ≡ with_rule (app_of command.entry) (option_rule id.entry.now)) }
    ensures local { IfOk result (λ c. (out-Command c).has_globals ≡ false) }
{
    command.arg(option(alloc, id))
}

/// The command `plan`, with what has to be there.
fn numbers_command<'a>(alloc: Global) -> Result<Command<'a>, AllocError>
    ensures app { IfOk result (λ c. app_of c ≡ numbers_app) }
    ensures local { IfOk result (λ c. (out-Command c).has_globals ≡ false) }
{
    let place = place_command(alloc, "plan", "model")?;
    let with_beliefs = with_option(alloc, place, "beliefs")?;
    let with_depth = with_option(alloc, with_beliefs, "depth")?;
    let with_stages = with_option(alloc, with_depth, "stages")?;
    let with_seed = with_option(alloc, with_stages, "seed")?;
    with_option(alloc, with_seed, "workers")
}

/// The command `plan`, with how it chooses.
fn choices_command<'a>(alloc: Global) -> Result<Command<'a>, AllocError>
    ensures app { IfOk result (λ c. app_of c ≡ choices_app) }
    ensures local { IfOk result (λ c. (out-Command c).has_globals ≡ false) }
{
    let prune = Arg::new(alloc, "prune")
        .long("prune")
        .action(ArgAction::SetTrue);
    let explore = Arg::new(alloc, "explore")
        .long("explore")
        .default_value("uniform");
    numbers_command(alloc)?.arg(prune)?.arg(explore)
}

/// The command `plan`.
fn plan_command<'a>(alloc: Global) -> Result<Command<'a>, AllocError>
    ensures app { IfOk result (λ c. app_of c ≡ plan_app) }
    ensures local { IfOk result (λ c. (out-Command c).has_globals ≡ false) }
{
    let choices = choices_command(alloc)?;
    choices.arg(Arg::new(alloc, "sessions").long("sessions"))
}

/// The command `act`.
fn act_command<'a>(alloc: Global) -> Result<Command<'a>, AllocError>
    ensures app { IfOk result (λ c. app_of c ≡ act_app) }
    ensures local { IfOk result (λ c. (out-Command c).has_globals ≡ false) }
{
    let plan = place_command(alloc, "act", "plan")?;
    plan.arg(place(alloc, "script"))
}

/// The words begin with the command, which has to be there.
fn top_command<'a>(alloc: Global) -> Command<'a>
    ensures app { app_of result ≡ top_app }
{
    Command::new(alloc, "perseus")
        .no_binary_name(true)
        .subcommand_required(true)
}

/// The command with `plan` below it.
fn with_plan_command<'a>(alloc: Global, command: Command<'a>) -> Result<Command<'a>, AllocError>
    ensures { IfOk result (λ c. app_of c ≡ with_subcommand (app_of command.entry) plan_app.top) }
{
    let plan = plan_command(alloc)?;
    command.subcommand(plan)
}

/// The command with one more below it, which has one word by itself.
fn with_place_command<'a>(
    alloc: Global,
    command: Command<'a>,
    name: &'a str,
    id: &'a str,
) -> Result<Command<'a>, AllocError>
    ensures { IfOk result (λ c. app_of c ≡ with_place (app_of command.entry) name.entry.now id.entry.now) }
{
    let place = place_command(alloc, name, id)?;
    command.subcommand(place)
}

/// The command with `act` below it.
fn with_act_command<'a>(alloc: Global, command: Command<'a>) -> Result<Command<'a>, AllocError>
    ensures { IfOk result (λ c. app_of c ≡ with_subcommand (app_of command.entry) act_app.top) }
{
    let act = act_command(alloc)?;
    command.subcommand(act)
}

/// The whole program.
fn tool_command<'a>(alloc: Global) -> Result<Command<'a>, AllocError>
    ensures { IfOk result (λ c. app_of c ≡ tool_app) }
{
    let with_plan = with_plan_command(alloc, top_command(alloc))?;
    let with_check = with_place_command(alloc, with_plan, "check", "model")?;
    let with_show = with_place_command(alloc, with_check, "show", "model")?;
    let with_generate = with_place_command(alloc, with_show, "gen", "number")?;
    let with_trial = with_place_command(alloc, with_generate, "trial", "number")?;
    let with_audit = with_place_command(alloc, with_trial, "audit", "plan")?;
    let with_migrate = with_place_command(alloc, with_audit, "migrate", "plan")?;
    with_act_command(alloc, with_migrate)
}

/// What the parser makes of the words.
pub fn matches_of<'a>(alloc: Global, words: &'a [String]) -> Result<ArgMatches<'a>, Error>
    ensures matches { IfOk result (λ m. subcommand_rows_of m ≡ subcommand_of tool_app (map string_bytes words.entry.now)) }
    ensures passes { IfOk result (λ m. fault_of tool_app (map string_bytes words.entry.now) ≡ []) }
    ensures refuses { IfErr result (λ e. (kind_of e ≡ ErrorKind.OutOfMemory) ⊎ ¬ (IsTaken (map string_bytes words.entry.now))) }
{
    let command = tool_command(alloc)?;
    command.try_get_matches_from(words)
}
