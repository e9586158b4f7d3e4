//! The program `cvl`, on the files and streams of the system.
#![tactic(auto)]

use shell::{StreamHost, SystemFiles, run_process};
use std::process::ExitCode;

fn main(rt: HostRuntime) -> ExitCode {
    let files = SystemFiles::new(&rt);
    let mut host = StreamHost::new(files, rt.stdout(), rt.stderr());
    ExitCode::from(run_process(&rt, rt.alloc(), &mut host))
}
