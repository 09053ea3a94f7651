//! The program `mediator`. What it does is in `med_main`; its stored run is the example of the README.
#![tactic(auto)]

use med_main::exit_code;
use real_outside::StdSink;
use std::io;
use std::process::ExitCode;

fn main(rt: HostRuntime) -> ExitCode {
    let stderr = rt.stderr();
    let mut err = StdSink::new(io::writer(&stderr));
    exit_code(&rt, &mut err)
}
