//! What the words of a command line say.

ghost use Rattle.std.specs.Prelude.{◌≡◌, ◌≤◌, Some, IfOk, IfErr, true, false, codes, unwrap_or, []};
ghost use Rattle.clap.specs.Words.{all_of, fault_of, first_of, found_of, rows_of, takes};
ghost use Rattle.clap.specs.Walk.{texts};
ghost use Rattle.cvl_base.specs.Limits.{longest_tile, most_workers};
ghost use Rattle.command_line.specs.Command.{cvl};
ghost use Rattle.command_line.specs.Reads.{HoldsAllArguments, ReadsBy, explain_given, inputs_given, is_left_out};
ghost use Rattle.command_line.specs.Reads.{is_set_in, number_given, number_in};
ghost use Rattle.command_line.specs.Reads.{script_given};
ghost use Rattle.command_line.specs.declared.fault.WordsFault.TheVariants as fault;

use crate::fault::WordsFault;
use crate::numbers::config;
use crate::parse::parsed;
use clap::ArgMatches;
use cvl_base::Config;
use std::alloc::{AllocError, Global};

/// What a command line asks for.
#[derive(Debug, Drop)]
pub struct Words<'a> {
    /// The length of tiles and the number of workers.
    pub config: Config,
    /// Whether to explain why the run stopped, if it did.
    pub explain: bool,
    /// The name of the script's file.
    pub script: &'a str,
    /// The names of the inputs' files, in the order of the inputs' numbers.
    pub inputs: Vec<&'a str>,
}

/// The names of the inputs' files, of which there may be none.
fn inputs<'a>(alloc: Global, matches: &ArgMatches<'a>) -> Result<Vec<&'a str>, AllocError>
    ensures { IfOk result (λ names. texts names.items
        ≡ unwrap_or (all_of (codes "inputs") (rows_of (found_of matches.now))) []) }
{
    match matches.get_strs("inputs") {
        Some(names) => Vec::from_slice(alloc, names),
        None => Ok(Vec::new(alloc)),
    }
}

/// Whether a flag is set.
fn is_set(matches: &ArgMatches<'_>, name: &str) -> bool
    ensures { result ≡ is_set_in name.now (rows_of (found_of matches.now)) }
{
    match matches.get_str(name) {
        Some(value) => value == "true",
        None => false,
    }
}

/// What the matches of the command say.
fn words_of<'a>(alloc: Global, matches: &ArgMatches<'a>) -> Result<Words<'a>, AllocError>
    requires { HoldsAllArguments matches.now }
    ensures tile { IfOk result (λ w.
        number_in (codes "tile") (rows_of (found_of matches.now)) ≡ Some w.config.tile) }
    ensures workers { IfOk result (λ w.
        number_in (codes "workers") (rows_of (found_of matches.now)) ≡ Some w.config.workers) }
    ensures explain { IfOk result (λ w.
        w.explain ≡ is_set_in (codes "explain") (rows_of (found_of matches.now))) }
    ensures script { IfOk result (λ w.
        first_of (codes "script") (rows_of (found_of matches.now)) ≡ Some w.script.now) }
    ensures inputs { IfOk result (λ w. texts w.inputs.items
        ≡ unwrap_or (all_of (codes "inputs") (rows_of (found_of matches.now))) []) }
{
    Ok(Words {
        config: config(matches),
        explain: is_set(matches, "explain"),
        script: matches.get_str("script").unwrap(),
        inputs: inputs(alloc, matches)?,
    })
}

/// Reads the words of a command line, the first of which is the program's own name.
///
/// The command is `cvl [--tile N] [--workers N] [--explain] SCRIPT [INPUT ..]`, which clap reads as a simple command. A tile has
/// 1 to 65,536 elements, by default 4,096; there are 1 to 64 workers, by default 4. A number is decimal digits, which may have a
/// plus sign and leading zeros. Options may stand before and after the names of files, which are returned as typed; after `--` a
/// word that begins with `-` is a name too. If the command refuses the words, or they ask for help, the answer is
/// `WordsFault::Refused`; otherwise they are read, or memory ran out.
pub fn read_words<'a>(alloc: Global, words: &'a [&'a str]) -> Result<Words<'a>, WordsFault>
    ensures tile { IfOk result (λ w.
        number_given (codes "tile") (texts words.entry.now) ≡ Some w.config.tile) }
    ensures workers { IfOk result (λ w.
        number_given (codes "workers") (texts words.entry.now) ≡ Some w.config.workers) }
    ensures tile_range { IfOk result (λ w. (1 ≤ w.config.tile) × (w.config.tile ≤ longest_tile)) }
    ensures workers_range { IfOk result (λ w. (1 ≤ w.config.workers) × (w.config.workers ≤ most_workers)) }
    ensures tile_default { IfOk result (λ w.
        is_left_out (codes "tile") (texts words.entry.now) ≡ true → w.config.tile ≡ 4096) }
    ensures workers_default { IfOk result (λ w.
        is_left_out (codes "workers") (texts words.entry.now) ≡ true → w.config.workers ≡ 4) }
    ensures explain { IfOk result (λ w. w.explain ≡ explain_given (texts words.entry.now)) }
    ensures explain_default { IfOk result (λ w.
        is_left_out (codes "explain") (texts words.entry.now) ≡ true → w.explain ≡ false) }
    ensures script { IfOk result (λ w. script_given (texts words.entry.now) ≡ Some w.script.now) }
    ensures inputs { IfOk result (λ w. texts w.inputs.items ≡ inputs_given (texts words.entry.now)) }
    ensures faults { ReadsBy (fault_of cvl (texts words.entry.now)) result }
    ensures taken { takes cvl (texts words.entry.now) ≡ true
        → IfErr result (λ why. why ≡ fault.NoResources) }
{
    let matches = parsed(alloc, words)?;
    Ok(words_of(alloc, &matches)?)
}
