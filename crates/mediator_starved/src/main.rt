//! The program once more, for a stored run that ends with another status than 0: a group's only mirror holds a bad row.
#![tactic(auto)]

use med_main::exit_code;
use real_outside::StdSink;
use std::io;
use std::process::ExitCode;

fn main(rt: HostRuntime) -> ExitCode {
    let stderr = rt.stderr();
    let mut err = StdSink::new(io::writer(&stderr));
    exit_code(&rt, &mut err)
}
