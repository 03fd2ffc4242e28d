//! What it means that something has held. Each law is the contract of a function, which does nothing.
ghost use Rattle.square_runs.specs.Laws.{HeldIsThroughout, SameUntilDue};

/// A test has held for a time exactly if, at each moment of it, each picture that stood met the test.
pub fn held_is_throughout()
    ensures { HeldIsThroughout }
{}

/// Whether something has lasted for a time stays the same until it will have.
pub fn same_until_due()
    ensures { SameUntilDue }
{}
