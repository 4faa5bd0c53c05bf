//! The words of the command line.
ghost use Rattle.std.specs.Prelude.{◌≡◌, IfOk};
ghost use Rattle.sccp_tool.specs.Commands.{command_of, plan_command_of, further_plan_command_of, wide_of, task_of, texts};
ghost use Rattle.sccp_tool.specs.Parsed.{task_in};

use crate::capture::capture_words;
use crate::change::change_words;
use crate::conform::conform_words;
use crate::connect::{Calling, connect_words};
use crate::covers::covers_words;
use crate::cuts::cuts_words;
use crate::import::import_words;
use crate::load::load_words;
use crate::margin::margin_words;
use crate::order::order_words;
use crate::replay::replay_words;
use crate::route::route_words;
use crate::send_on::{Incoming, send_on_words};
use crate::show::show_words;
use crate::show_hex::show_hex_words;
use crate::unused::unused_words;
use crate::verify::verify_words;
use plan_model::Limits;
use sccp_base::{Octets, OutOfMemory};
use sccp_plans::{Losses, Start};
use sccp_replay::Workers;
use sccp_work::PlanPath;
use std::alloc::Global;

/// What the words ask for, one variant a command.
#[derive(Drop)]
pub enum Command<'a> {
    /// To show the message of these octets.
    ShowHex(Octets),
    /// To show the messages of the file of this name.
    Show(&'a str),
    /// To verify the plan of this file.
    Verify(PlanPath<'a>),
    /// To follow a title under the plan of this file.
    Route(PlanPath<'a>, Start),
    /// To replay the trace of the second file under the plan of the first one, with this number of workers.
    Replay(PlanPath<'a>, &'a str, Workers),
    /// To make a plan and messages from a number, and to count how they end: the number, how many messages, the workers.
    Load(u32, u32, Workers),
    /// To show every cut of the message of these octets.
    Cuts(Octets),
    /// To make a trace of the second file under the plan of the first one.
    Import(PlanPath<'a>, &'a str),
    /// To say whether relays may hold either of the plans of these files, the old one and the new one.
    Change(PlanPath<'a>, PlanPath<'a>),
    /// To make one connection over the relays of the plan of this file, and to report its outcome.
    Connect(PlanPath<'a>, Calling),
    /// To print what becomes of octets at a relay of the plan of this file, a long message in segments.
    SendOn(PlanPath<'a>, Incoming),
    /// To verify each cover of the plan of this file by itself.
    Covers(PlanPath<'a>),
    /// To list what no covered title of the plan of this file can use.
    Unused(PlanPath<'a>),
    /// To say how many losses there can be before a title of a cover is stopped, of the plan of this file.
    Margin(PlanPath<'a>, Losses),
    /// To print the lines of the capture of the second file under the plan of the first one.
    Capture(PlanPath<'a>, &'a str),
    /// To give an order in which relays can be given the second of the plans of these files, the old one and the new one.
    Order(PlanPath<'a>, PlanPath<'a>),
    /// To judge the messages of the second file against the plan of the first one.
    Conform(PlanPath<'a>, &'a str),
}

/// What the words ask for, or none if they have none of the shapes. After the word `wide` a plan is read under the wide limits.
pub fn parse(alloc: Global, words: &[String]) -> Result<Option<Command<'_>>, OutOfMemory>
    ensures { IfOk result (λ command. task_in command ≡ task_of (texts words.now)) }
{
    match words {
        [name, words @ ..] => {
            if name.as_str() == "wide" {
                wide_of(alloc, words)
            } else {
                command_of(alloc, name.as_str(), words)
            }
        }
        [] => Ok(None),
    }
}

/// The command of the words after `wide`, which reads a plan.
fn wide_of(alloc: Global, words: &[String]) -> Result<Option<Command<'_>>, OutOfMemory>
    ensures { IfOk result (λ command. task_in command ≡ wide_of (texts words.now)) }
{
    match words {
        [name, words @ ..] => plan_command_of(alloc, Limits::wide(), name.as_str(), words),
        [] => Ok(None),
    }
}

/// The command of that name with these words after it.
#[tactic(auto, unfolding(crate::specs::Commands::command_of))]
fn command_of<'a>(
    alloc: Global,
    name: &str,
    words: &'a [String],
) -> Result<Option<Command<'a>>, OutOfMemory>
    ensures { IfOk result (λ command. task_in command ≡ command_of name.now (texts words.now)) }
{
    if name == "show-hex" {
        show_hex_words(alloc, words)
    } else if name == "show" {
        Ok(show_words(words))
    } else if name == "load" {
        Ok(load_words(words))
    } else if name == "cuts" {
        cuts_words(alloc, words)
    } else {
        plan_command_of(alloc, Limits::standard(), name, words)
    }
}

/// The same, of the commands that read a plan, under these limits.
#[tactic(auto, unfolding(crate::specs::Commands::plan_command_of))]
fn plan_command_of<'a>(
    alloc: Global,
    limits: Limits,
    name: &str,
    words: &'a [String],
) -> Result<Option<Command<'a>>, OutOfMemory>
    ensures { IfOk result (λ command. task_in command ≡ plan_command_of limits name.now (texts words.now)) }
{
    if name == "verify" {
        Ok(verify_words(limits, words))
    } else if name == "covers" {
        Ok(covers_words(limits, words))
    } else if name == "unused" {
        Ok(unused_words(limits, words))
    } else if name == "margin" {
        Ok(margin_words(limits, words))
    } else if name == "change" {
        Ok(change_words(limits, words))
    } else if name == "order" {
        Ok(order_words(limits, words))
    } else if name == "route" {
        Ok(route_words(limits, words))
    } else {
        further_plan_command_of(alloc, limits, name, words)
    }
}

/// The same, of those that send messages over its relays, or take them from a file.
#[tactic(auto, unfolding(crate::specs::Commands::further_plan_command_of))]
fn further_plan_command_of<'a>(
    alloc: Global,
    limits: Limits,
    name: &str,
    words: &'a [String],
) -> Result<Option<Command<'a>>, OutOfMemory>
    ensures { IfOk result (λ command. task_in command ≡ further_plan_command_of limits name.now (texts words.now)) }
{
    if name == "replay" {
        Ok(replay_words(limits, words))
    } else if name == "import" {
        Ok(import_words(limits, words))
    } else if name == "capture" {
        Ok(capture_words(limits, words))
    } else if name == "conform" {
        Ok(conform_words(limits, words))
    } else if name == "connect" {
        connect_words(alloc, limits, words)
    } else if name == "send-on" {
        send_on_words(alloc, limits, words)
    } else {
        Ok(None)
    }
}
