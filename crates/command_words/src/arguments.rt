//! The builders of arguments and of commands.

ghost use Rattle.std.specs.Prelude.{◌≡◌, IfOk, codes, false};
ghost use Rattle.clap.specs.Words.{app_of, new_app, rule_of, with_rule, with_subcommand};
ghost use Rattle.clap.specs.declared.builder.command.Command.TheViews.{out-Command as fields_of};
ghost use Rattle.command_words.specs.Rules.{default_rule, flag_rule, number_rule, place_rule, required_rule, text_rule, with_server};

use clap::builder::ValueParser;
use clap::{Arg, ArgAction, Command};
use std::alloc::{AllocError, Global};

/// A long option that takes one text.
pub(crate) fn text<'a>(alloc: Global, name: &'a str, value: &'a str, help: &'a str) -> Arg<'a>
    ensures rule { rule_of result ≡ text_rule name.entry.now }
    ensures plain { result.global ≡ false }
{
    Arg::new(alloc, name)
        .long(name)
        .action(ArgAction::Set)
        .value_name(value)
        .help(help)
}

/// A long option that must be given.
pub(crate) fn required<'a>(alloc: Global, name: &'a str, value: &'a str, help: &'a str) -> Arg<'a>
    ensures rule { rule_of result ≡ required_rule name.entry.now }
    ensures plain { result.global ≡ false }
{
    text(alloc, name, value, help).required(true)
}

/// A long option with a default.
pub(crate) fn defaulted<'a>(
    alloc: Global,
    name: &'a str,
    value: &'a str,
    default: &'a str,
    help: &'a str,
) -> Arg<'a>
    ensures rule { rule_of result ≡ default_rule name.entry.now default.entry.now }
    ensures plain { result.global ≡ false }
{
    text(alloc, name, value, help).default_value(default)
}

/// A long option that takes a whole number, with a default.
pub(crate) fn number<'a>(
    alloc: Global,
    name: &'a str,
    least: u64,
    most: u64,
    default: &'a str,
    help: &'a str,
) -> Arg<'a>
    ensures rule { rule_of result ≡ number_rule name.entry.now least most default.entry.now }
    ensures plain { result.global ≡ false }
{
    text(alloc, name, "N", help)
        .value_parser(ValueParser::unsigned(least, most))
        .default_value(default)
}

/// A long option that takes no value.
pub(crate) fn flag<'a>(alloc: Global, name: &'a str, help: &'a str) -> Arg<'a>
    ensures rule { rule_of result ≡ flag_rule name.entry.now }
    ensures plain { result.global ≡ false }
{
    Arg::new(alloc, name)
        .long(name)
        .action(ArgAction::SetTrue)
        .help(help)
}

/// A word that must be given, without an option's name.
pub(crate) fn place<'a>(alloc: Global, name: &'a str, help: &'a str) -> Arg<'a>
    ensures rule { rule_of result ≡ place_rule name.entry.now }
    ensures plain { result.global ≡ false }
{
    Arg::new(alloc, name).required(true).help(help)
}

/// A command with no arguments yet.
pub(crate) fn command<'a>(alloc: Global, name: &'a str, about: &'a str) -> Command<'a>
    ensures app { app_of result ≡ new_app name.entry.now }
    ensures plain { (fields_of result).has_globals ≡ false }
{
    Command::new(alloc, name).about(about)
}

/// The command with one more argument.
pub(crate) fn add<'a>(command: Command<'a>, arg: Arg<'a>) -> Result<Command<'a>, AllocError>
    requires command { (fields_of command).has_globals ≡ false }
    requires arg { arg.global ≡ false }
    ensures app { IfOk result (λ c. app_of c ≡ with_rule (app_of command.entry) (rule_of arg.entry)) }
    ensures plain { IfOk result (λ c. (fields_of c).has_globals ≡ false) }
{
    command.arg(arg)
}

/// The command with one more subcommand.
pub(crate) fn enter<'a>(command: Command<'a>, sub: Command<'a>) -> Result<Command<'a>, AllocError>
    requires command { (fields_of command).has_globals ≡ false }
    requires sub { (fields_of sub).has_globals ≡ false }
    ensures app { IfOk result (λ c. app_of c ≡ with_subcommand (app_of command.entry) (app_of sub.entry).top) }
    ensures plain { IfOk result (λ c. (fields_of c).has_globals ≡ false) }
{
    command.subcommand(sub)
}

/// The command of a client, with the server and the caller.
pub(crate) fn client<'a>(command: Command<'a>, alloc: Global) -> Result<Command<'a>, AllocError>
    requires command { (fields_of command).has_globals ≡ false }
    ensures app { IfOk result (λ c. app_of c ≡ with_server (app_of command.entry)) }
    ensures plain { IfOk result (λ c. (fields_of c).has_globals ≡ false) }
{
    let command = add(
        command,
        required(
            alloc,
            "server",
            "URL",
            "The server, an http URL with a host, such as http://127.0.0.1:8080",
        ),
    )?;
    add(
        command,
        required(
            alloc,
            "caller",
            "CALLER",
            "Who asks, sent as X-Swarming-Caller, such as user:alice",
        ),
    )
}
