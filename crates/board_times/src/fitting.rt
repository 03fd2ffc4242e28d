//! Whether a file of times belongs to a capture.
ghost use Rattle.std.specs.Prelude.{◌≡◌};
ghost use Rattle.board_times.specs.Fitting.{covered, covered_after, digest, digest_next, fit_by, fit_of};

use crate::events::{Event, What};
use crate::reading::Kept;

/// How a file of times fits a capture.
#[derive(Clone, Copy)]
pub enum Fit {
    /// It is of another capture: the first bytes have another digest, or aren't there.
    Another,
    /// It accounts for each byte.
    Whole,
    /// The last so many bytes of the capture have no time.
    Short(u64),
    /// It tells of so many bytes more than the capture has.
    Long(u64),
}

fn mixed(hash: u64, byte: u8) -> u64
    ensures { result ≡ digest_next hash byte }
{
    (hash ^ u64::from(byte)).wrapping_mul(0x100_0000_01b3)
}

/// The digest of some bytes: FNV-1a with 64 bits.
pub fn digest(bytes: &[u8]) -> u64
    ensures { result ≡ digest bytes.now }
{
    let mut hash = 0xcbf2_9ce4_8422_2325;
    for byte in bytes {
        hash = mixed(hash, *byte);
    }
    hash
}

/// How many bytes of the capture are accounted for behind an event, if so many were before it.
pub(crate) fn after(what: What, before: u64) -> u64
    ensures { result ≡ covered_after what before }
{
    match what {
        What::Begins(size) => size,
        What::Hears(count) | What::Adds(count) | What::Brings(count) => {
            before.saturating_add(count)
        }
        _ => before,
    }
}

/// How many bytes of the capture the events account for, if it had so many before.
fn covered(size: u64, events: &[Event]) -> u64
    ensures { result ≡ covered size events.now }
{
    let mut count = size;
    for event in events {
        count = after(event.what, count);
    }
    count
}

/// How a file of times fits a capture.
pub fn fit_of(kept: &Kept, capture: &[u8]) -> Fit
    ensures { result ≡ fit_of kept.now capture.now }
{
    let have = capture.len() as u64;
    if have < kept.heading.size {
        return Fit::Another;
    }
    if digest(&capture[..kept.heading.size as usize]) != kept.heading.digest {
        return Fit::Another;
    }
    compare(covered(kept.heading.size, &kept.events), have)
}

fn compare(told: u64, have: u64) -> Fit
    ensures { result ≡ fit_by told have }
{
    if told < have {
        return Fit::Short(have - told);
    }
    if have < told {
        return Fit::Long(told - have);
    }
    Fit::Whole
}
