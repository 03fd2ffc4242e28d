//! What frames that are put in do to a stream, and to what is read from it.
ghost use Rattle.pair_frames.specs.Laws.{FramesArePutIn, PutInIsRead, StreamsAreJoined};

/// A stream that ends with a frame and another one behind it show what each shows alone; so frames may be put in
/// between.
pub fn frames_are_put_in()
    ensures joined { StreamsAreJoined }
    ensures between { FramesArePutIn }
{}

/// What is put in gives the entries of the pair and the entry again, and leaves trust, picture and reading as they
/// were.
pub fn put_in_is_read()
    ensures { PutInIsRead }
{}
