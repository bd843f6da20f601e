//! The one command that is handed to `clap`: two words, and five options that take one value each. It has no help
//! flags, no defaults and no rule of one option on another, so what it finds in the words of a plan is known, and
//! only memory can fail.
ghost use Rattle.std.specs.Prelude.{◌≡◌, IfOk, IfErr, map, string_bytes, true, is_some};
ghost use Rattle.clap.specs.Words.{app_of, found_of, kind_of, with_rule};
ghost use Rattle.teams_words.specs.Command.{teams, option_rule, with_words};
ghost use Rattle.teams_words.specs.Plans.{chosen_in};
ghost use Rattle.teams_words.specs.Read.{Finds};

use clap::error::ErrorKind;
use clap::{Arg, ArgMatches, Command, Error};
use std::alloc::{AllocError, Global};

/// The command with its two words.
fn words_command<'a>(alloc: Global) -> Result<Command<'a>, AllocError>
    ensures { IfOk result (λ c. app_of c ≡ with_words) }
{
    let action = Arg::new(alloc, "action");
    let model = Arg::new(alloc, "model");
    let bare = Command::new(alloc, "teams")
        .no_binary_name(true)
        .disable_help_flag(true);
    let one = bare.arg(action)?;
    one.arg(model)
}

/// The command with an option more, `--NAME`, that takes one value.
fn with_option<'a>(
    alloc: Global,
    command: Command<'a>,
    name: &'a str,
) -> Result<Command<'a>, AllocError>
    ensures { IfOk result (λ c. app_of c ≡ with_rule (app_of command.entry) (option_rule name.entry.now)) }
{
    let option = Arg::new(alloc, name).long(name);
    command.arg(option)
}

fn teams_command<'a>(alloc: Global) -> Result<Command<'a>, AllocError>
    ensures { IfOk result (λ c. app_of c ≡ teams) }
{
    let command = words_command(alloc)?;
    let command = with_option(alloc, command, "cert")?;
    let command = with_option(alloc, command, "workers")?;
    let command = with_option(alloc, command, "groups")?;
    let command = with_option(alloc, command, "mode")?;
    with_option(alloc, command, "log")
}

/// What `clap` finds in words of the form of a command line.
pub fn matches_in<'a>(alloc: Global, words: &'a [String]) -> Result<ArgMatches<'a>, Error>
    requires { is_some (chosen_in (map string_bytes words.now)) ≡ true }
    ensures found { IfOk result (λ m. Finds (chosen_in (map string_bytes words.entry.now)) (found_of m)) }
    ensures memory { IfErr result (λ e. kind_of e ≡ ErrorKind.OutOfMemory) }
{
    let command = teams_command(alloc)?;
    command.try_get_matches_from(words)
}
