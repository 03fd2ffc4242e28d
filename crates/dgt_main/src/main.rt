//! Runs `dgt_replay` on the standard streams.
#![tactic(auto)]

use dgt_replay::run;
use std::env;
use std::io::Write;
use std::process::ExitCode;
use watched_streams::Watch;

/// The arguments, the program's name first; nothing where there is no memory for them.
fn arguments_of(rt: &HostRuntime) -> Option<Vec<String>> {
    let args = env::args(rt).ok()?;
    args.collect::<Vec<String>>(rt.alloc()).ok()
}

fn main(rt: HostRuntime) -> ExitCode {
    let mut err = Watch::new(rt.stderr());
    let Some(arguments) = arguments_of(&rt) else {
        let _ = err.write_all(b"memory\n");
        return ExitCode::from(4);
    };
    let mut reader = Watch::new(rt.stdin());
    let mut out = Watch::new(rt.stdout());
    let status = run(
        rt.alloc(),
        arguments.as_slice(),
        &mut reader,
        &mut out,
        &mut err,
    );
    ExitCode::from(status)
}
