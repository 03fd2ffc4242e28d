//! How far a text has been written.
ghost use Rattle.std.specs.Prelude.{◌<◌, ◌≤◌, ◌^◌};

/// How far a text has been written: the length of its last line, and how many bytes were taken.
#[derive(Clone, Copy)]
pub struct Place {
    pub column: usize,
    pub written: u64,
    ghost in_line: { column ≤ 79 },
    ghost counted: { written < 2 ^ 64 },
}
