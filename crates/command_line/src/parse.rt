//! The matches of the words.

ghost use Rattle.std.specs.Prelude.{◌≡◌, IfOk, IfErr, true};
ghost use Rattle.clap.specs.Words.{fault_of, found_of, matches_of, rows_of, takes};
ghost use Rattle.clap.specs.Walk.{texts};
ghost use Rattle.command_line.specs.Command.{cvl};
ghost use Rattle.command_line.specs.Reads.{HoldsAllArguments, ReadsBy};
ghost use Rattle.command_line.specs.declared.fault.WordsFault.TheVariants as fault;

use crate::command::cvl_command;
use crate::fault::{WordsFault, fault_of};
use clap::ArgMatches;
use std::alloc::Global;

/// The matches that clap finds in the words for the command.
pub(crate) fn parsed<'a>(alloc: Global, words: &'a [&'a str]) -> Result<ArgMatches<'a>, WordsFault>
    ensures rows { IfOk result (λ m. rows_of (found_of m) ≡ matches_of cvl (texts words.entry.now)) }
    ensures whole { IfOk result HoldsAllArguments }
    ensures faults { ReadsBy (fault_of cvl (texts words.entry.now)) result }
    ensures taken { takes cvl (texts words.entry.now) ≡ true
        → IfErr result (λ why. why ≡ fault.NoResources) }
{
    let command = cvl_command(alloc)?;
    match command.try_get_matches_from(words) {
        Ok(matches) => Ok(matches),
        Err(error) => Err(fault_of(error)),
    }
}
