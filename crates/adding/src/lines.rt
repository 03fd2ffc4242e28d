//! The line that says what became of a typed line.
ghost use Rattle.std.specs.Prelude.{◌≡◌, IfOk};
ghost use Rattle.adding.specs.Lines.{answer_line};

use crate::adding::{Answer, Reason};
use std::alloc::{AllocError, Global};
use typed_lines::{joined, said_line};

/// The line that says what became of a typed line, with its end.
///
/// # Errors
///
/// Where there is no memory for it.
pub fn line_of(alloc: Global, answer: &Answer<'_>) -> Result<Vec<u8>, AllocError>
    ensures { IfOk result (λ line. line.items ≡ answer_line answer.now) }
{
    match answer {
        Answer::Added(said, _) | Answer::Refused(said, Reason::Line) => {
            said_line(alloc, b"add: ", said)
        }
        Answer::Refused(_, Reason::Ended) => joined(alloc, b"add: ended\n", b"", b""),
        Answer::Refused(_, Reason::Board) => joined(alloc, b"add: board\n", b"", b""),
        Answer::Refused(_, Reason::Long) => joined(alloc, b"add: long\n", b"", b""),
    }
}
