//! Calls that take memory, each made a second time where it was refused. Each line says whether the call was granted,
//! was refused and left all as it was so that the second one gave what is due, or is broken. Where standard input is empty, three
//! lines more say what only streams in memory show of the program.
#![tactic(auto)]

mod calls;
mod flushes;
mod running;
mod settling;

use std::alloc::Global;
use std::io::{self, Read};

/// How a call went.
#[derive(Clone, Copy)]
pub enum Outcome {
    Granted,
    /// Refused, with nothing changed; made again it was granted.
    Refused,
    Broken,
}

impl Outcome {
    /// Where no allocation failed, and `holds` says whether the result is due.
    fn granted(holds: bool) -> Outcome {
        if holds {
            Outcome::Granted
        } else {
            Outcome::Broken
        }
    }

    /// Where an allocation failed, and `holds` says whether the second result is due.
    fn refused(holds: bool) -> Outcome {
        if holds {
            Outcome::Refused
        } else {
            Outcome::Broken
        }
    }

    /// How both calls went.
    fn and(self, other: Outcome) -> Outcome {
        match (self, other) {
            (Outcome::Granted, Outcome::Granted) => Outcome::Granted,
            (Outcome::Broken, _) => Outcome::Broken,
            (_, Outcome::Broken) => Outcome::Broken,
            _ => Outcome::Refused,
        }
    }

    fn word(self) -> &'static str {
        match self {
            Outcome::Granted => "granted",
            Outcome::Refused => "refused",
            Outcome::Broken => "broken",
        }
    }
}

/// Says how each call went.
fn make_calls(rt: &HostRuntime) -> io::Result<()> {
    let alloc = rt.alloc();
    let outcomes = [
        ("legal_moves", calls::legal_moves(alloc)),
        ("see", settling::see(alloc)),
        ("see_field", settling::see_field(alloc)),
        ("set", calls::set(alloc)),
        ("read_pgn", calls::reads_game(alloc)),
        ("take", settling::take(alloc)),
    ];
    for (name, outcome) in outcomes {
        println!(rt; "{name} {}", outcome.word())?;
    }
    Ok(())
}

/// Says of how many failed flushes the program told, how many runs flushed all that they wrote, and the status without an argument.
fn make_flushes(rt: &HostRuntime) -> io::Result<()> {
    println!(rt; "failed flushes told {}", flushes::told(rt.alloc()))?;
    println!(rt; "outputs flushed {}", flushes::flushed(rt.alloc()))?;
    let status = flushes::status_without_arguments(rt.alloc());
    println!(rt; "status without arguments {status}")
}

fn main(rt: HostRuntime) -> io::Result<()> {
    let mut buffer = [0u8; 1];
    let count = rt.stdin().read(&mut buffer)?;
    make_calls(&rt)?;
    if count == 0 {
        make_flushes(&rt)?;
    }
    Ok(())
}
