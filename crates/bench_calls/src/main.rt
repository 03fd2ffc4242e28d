//! Calls of the libraries, many times over, for the scripts in bench/: `bench_calls rules`; `bench_calls san write 100`
//! or `read`, of the game on standard input; `bench_calls settling pictures 1000`, `updates` or `plies`, and as a
//! yardstick `copy`; `bench_calls doubts`, of what is heard of boards on standard input. Without arguments what has a known
//! answer.
#![tactic(auto)]

mod doubts;
mod rules;
mod san;
mod settling;

use std::process::ExitCode;
use std::{env, io};

/// What has a known answer: the counts of the rules, a thousand of each task of a settler, the game on standard input.
fn run_known(rt: &HostRuntime) -> io::Result<bool> {
    rules::run(rt)?;
    for task in ["pictures", "updates", "plies", "copy"] {
        settling::run(rt, task, 1000)?;
    }
    san::run(rt, "write", 3)
}

/// False where no such task is known, or where the game has a text that is no legal move.
fn run(rt: &HostRuntime, what: &str, task: &str, count: u32) -> io::Result<bool> {
    match what {
        "" => run_known(rt),
        "doubts" => doubts::run(rt),
        "rules" => rules::run(rt),
        "san" => san::run(rt, task, count),
        "settling" => settling::run(rt, task, count),
        _ => Ok(false),
    }
}

fn argument(arguments: &[String], at: usize) -> &str {
    arguments.get(at).map_or("", |argument| argument.as_str())
}

fn main(rt: HostRuntime) -> ExitCode {
    let Ok(args) = env::args(&rt) else {
        return ExitCode::from(4);
    };
    let Ok(arguments) = args.collect::<Vec<String>>(rt.alloc()) else {
        return ExitCode::from(4);
    };
    let count = argument(&arguments, 3).parse::<u32>().unwrap_or(0);
    match run(&rt, argument(&arguments, 1), argument(&arguments, 2), count) {
        Ok(true) => ExitCode::SUCCESS,
        Ok(false) => ExitCode::from(2),
        Err(_) => ExitCode::from(3),
    }
}
