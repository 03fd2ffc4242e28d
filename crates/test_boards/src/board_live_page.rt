//! The example on the page of `board_live`.

use board_cable::What::{Begins, Opens};
use board_captures::Method;
use board_live::{Happened, Live, What};
use std::alloc::{AllocError, Global};

/// How many bytes a board is sent when a call begins and its line is opened.
fn bytes_asked(alloc: Global, method: &Method) -> Result<usize, AllocError> {
    let mut live = Live::new(alloc, method);
    let mut lines = Vec::new(alloc);
    let begins = Happened {
        at: 0,
        what: What::Cable(Begins),
    };
    live.take(begins, &[], &mut lines)?;
    let opens = Happened {
        at: 5,
        what: What::Cable(Opens),
    };
    match live.take(opens, &[], &mut lines)?.request {
        None => Ok(0),
        Some(request) => Ok(request.bytes().len()),
    }
}
