//! What holds of each file of times.
ghost use Rattle.board_times.specs.Laws.{FirstBytesGiveFirstEvents, WrittenIsRead};

/// What is written reads back to the same events, and to no others.
pub fn written_is_read()
    ensures { WrittenIsRead }
{}

/// The first bytes of a file give the first of its events.
pub fn first_bytes_give_first_events()
    ensures { FirstBytesGiveFirstEvents }
{}
