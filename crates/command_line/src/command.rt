//! The command, as clap needs it.

ghost use Rattle.std.specs.Prelude.{◌≡◌, false, IfOk};
ghost use Rattle.clap.specs.Words.{app_of, rule_of};
ghost use Rattle.command_line.specs.Command.{cvl, explain_rule, number_rule, script_rule, inputs_rule};

use clap::builder::ValueParser;
use clap::{Arg, ArgAction, Command};
use cvl_base::limits::{LONGEST_TILE, MOST_WORKERS};
use std::alloc::{AllocError, Global};

/// The default tile length, in elements.
const TILE: &str = "4096";

/// The default number of workers.
const WORKERS: &str = "4";

/// The version of the program, which is that of the library.
const VERSION: &str = "1.0.0";

/// What the program does, in a line.
const ABOUT: &str = "Runs a script of vector calls over files of integers";

/// The end of the text of help, after the arguments.
const AFTER_HELP: &str = "Exit status:
  0  the script ran to its end
  1  the script has a fault
  2  the command line was refused
  3  a file, memory or a write failed

For more see man cvl, and, in share/doc/cvl of an installation or in a checkout, docs/user/calls.md
for each call and docs/user/script.md for scripts, inputs and faults.";

/// An option `--NAME N` with a default.
fn number_option<'a>(
    alloc: Global,
    name: &'a str,
    parser: ValueParser<'a>,
    default: &'a str,
) -> Arg<'a>
    ensures rule { rule_of result ≡ number_rule name.entry.now parser.entry default.entry.now }
    ensures own { result.global ≡ false }
{
    Arg::new(alloc, name)
        .long(name)
        .value_name("N")
        .action(ArgAction::Set)
        .value_parser(parser)
        .default_value(default)
}

/// The flag `--explain`.
fn explain<'a>(alloc: Global) -> Arg<'a>
    ensures rule { rule_of result ≡ explain_rule }
    ensures own { result.global ≡ false }
{
    Arg::new(alloc, "explain")
        .long("explain")
        .action(ArgAction::SetTrue)
        .help("Explain on standard error why the script stopped")
}

/// The name of the script's file.
fn script<'a>(alloc: Global) -> Arg<'a>
    ensures rule { rule_of result ≡ script_rule }
    ensures own { result.global ≡ false }
{
    Arg::new(alloc, "script")
        .value_name("SCRIPT")
        .action(ArgAction::Set)
        .required(true)
        .help("The file of the script, with a call or a write on each line")
}

/// The names of the files of the inputs.
fn inputs<'a>(alloc: Global) -> Arg<'a>
    ensures rule { rule_of result ≡ inputs_rule }
    ensures own { result.global ≡ false }
{
    Arg::new(alloc, "inputs")
        .value_name("INPUT")
        .action(ArgAction::Append)
        .help("The file of each input, integers between white space; the first is input 1")
}

/// The command `cvl [--tile N] [--workers N] [--explain] SCRIPT [INPUT ..]`, with help and a version.
pub(crate) fn cvl_command<'a>(alloc: Global) -> Result<Command<'a>, AllocError>
    ensures { IfOk result (λ c. app_of c ≡ cvl) }
{
    let tile = number_option(
        alloc,
        "tile",
        clap::value_parser!(u32).range(1..=i64::from(LONGEST_TILE)),
        TILE,
    )
    .help("The length of a tile, in elements, from 1 to 65536");
    let workers = number_option(
        alloc,
        "workers",
        clap::value_parser!(u32).range(1..=i64::from(MOST_WORKERS)),
        WORKERS,
    )
    .help("The number of workers, from 1 to 64");
    let command = Command::new(alloc, "cvl")
        .arg(tile)?
        .arg(workers)?
        .arg(explain(alloc))?
        .arg(script(alloc))?
        .arg(inputs(alloc))?;
    Ok(command.about(ABOUT).version(VERSION).after_help(AFTER_HELP))
}
