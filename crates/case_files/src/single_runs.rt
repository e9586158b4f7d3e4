//! The runs of a case.

use crate::cases::Case;
use cvl_base::{Config, NoResources};
use std::alloc::Global;

/// One run of a case.
#[derive(Drop)]
pub struct SingleRun<'a> {
    /// The case.
    pub case: &'a Case<'a>,
    /// The tiles and the workers.
    pub config: Config,
    /// The inputs, in their order.
    pub inputs: Vec<&'a [u8]>,
    /// What is expected: the text that the script writes, and after it the line that says why it stops, if it does.
    pub shown: Vec<u8>,
}

impl<'a> SingleRun<'a> {
    /// The run of a case on its own inputs, with nothing expected so far.
    fn new(
        alloc: Global,
        case: &'a Case<'a>,
        config: Config,
    ) -> Result<SingleRun<'a>, NoResources> {
        let mut inputs = Vec::new(alloc);
        for input in &case.inputs {
            inputs.push(input.as_slice())?;
        }
        let shown = Vec::new(alloc);
        Ok(SingleRun {
            case,
            config,
            inputs,
            shown,
        })
    }

    /// Expects the text and the stop of the case.
    fn expect_of_case(&mut self) -> Result<(), NoResources> {
        self.shown.extend_from_slice(&self.case.text)?;
        Ok(self.shown.extend_from_slice(&self.case.stop)?)
    }

    /// Adds the inputs of a row: a line with the last inputs, and maybe their outcome.
    fn add_row(&mut self, row: &'a str) -> Result<(), NoResources> {
        let (inputs, line) = match row.split_once(" -> ") {
            Some((inputs, line)) => (inputs, Some(line)),
            None => (row, None),
        };
        for input in inputs.split('|') {
            self.inputs.push(input.as_bytes())?;
        }
        let Some(line) = line else {
            return self.expect_of_case();
        };
        self.shown.extend_from_slice(line.as_bytes())?;
        Ok(self.shown.push(b'\n')?)
    }
}

/// Adds the runs of a case on one configuration: one for each of its rows, or a single one if it has none. Rows that are not
/// UTF-8 are one row without a byte.
fn add_runs<'a>(
    alloc: Global,
    case: &'a Case<'a>,
    config: Config,
    runs: &mut Vec<SingleRun<'a>>,
) -> Result<(), NoResources> {
    if case.each.is_empty() {
        let mut run = SingleRun::new(alloc, case, config)?;
        run.expect_of_case()?;
        return Ok(runs.push(run)?);
    }
    for row in str::from_utf8(&case.each).unwrap_or("\n").lines() {
        let mut run = SingleRun::new(alloc, case, config)?;
        run.add_row(row)?;
        runs.push(run)?;
    }
    Ok(())
}

/// The runs of a case on each of its configurations. One without any runs on short tiles, so that short vectors are cut.
pub fn runs_of<'a>(alloc: Global, case: &'a Case<'a>) -> Result<Vec<SingleRun<'a>>, NoResources> {
    let mut runs = Vec::new(alloc);
    if case.configs.is_empty() {
        add_runs(alloc, case, Config::new(2, 3).unwrap(), &mut runs)?;
    }
    for config in &case.configs {
        add_runs(alloc, case, *config, &mut runs)?;
    }
    Ok(runs)
}
