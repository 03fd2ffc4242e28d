//! Runs of the program over streams in memory.

use dgt_replay::run;
use dgt_vectors::bytes::Bytes;
use dgt_vectors::streams::{Sink, Source};
use std::alloc::{AllocError, Global};
use watched_streams::Watch;

/// What a run has left.
#[derive(Drop)]
pub struct Left {
    pub status: u8,
    /// What was written to the output and flushed.
    pub shown: Bytes,
    /// What was written to the output.
    pub out: Bytes,
    /// What was written to standard error.
    pub err: Bytes,
}

/// The texts as arguments of the command line, after the name of the program.
fn arguments_of(alloc: Global, texts: &[&str]) -> Result<Vec<String>, AllocError> {
    let mut arguments = Vec::new(alloc);
    arguments.push(String::from_str(alloc, "dgt_replay")?)?;
    for text in texts {
        arguments.push(String::from_str(alloc, text)?)?;
    }
    Ok(arguments)
}

/// Runs the program with these arguments, its name among them, over these streams.
pub fn run_with(
    alloc: Global,
    arguments: &[String],
    source: Source<'_>,
    out: Sink,
    err: Sink,
) -> Left {
    let mut reader = Watch::new(source);
    let mut out = Watch::new(out);
    let mut err = Watch::new(err);
    let status = run(alloc, arguments, &mut reader, &mut out, &mut err);
    Left {
        status,
        shown: Bytes::of(&[out.inner().shown()]),
        out: Bytes::of(&[out.inner().held()]),
        err: Bytes::of(&[err.inner().held()]),
    }
}

/// Runs the program with these arguments after its name, where there is memory for them.
pub fn run_over(
    alloc: Global,
    texts: &[&str],
    source: Source<'_>,
    out: Sink,
    err: Sink,
) -> Option<Left> {
    match arguments_of(alloc, texts) {
        Ok(arguments) => Some(run_with(alloc, arguments.as_slice(), source, out, err)),
        Err(_) => None,
    }
}
