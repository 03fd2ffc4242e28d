//! What holds of all texts, each law as the contract of a function that does nothing.
ghost use Rattle.chess_text.specs.Laws.{PlacementsAreThese, PlacementsReadBack, TextsTellPositions, OneRefusal, FensArePlain, TextsTellMoves, MovesTellTexts, TextsArePlain};

/// A placement is the one text of eight ranks from rank 8 to rank 1 with `/` between, in each of which a piece is its
/// letter and empty squares side by side are one digit, their number (PGN standard, section 16.1.3.1).
pub fn placements_are_these()
    ensures { PlacementsAreThese }
{}

/// Read square by square, the placement of a board gives the board back, and no two digits of a placement stand side by
/// side.
pub fn placements_read_back()
    ensures { PlacementsReadBack }
{}

/// A text tells one position at most, so two positions never share a FEN.
pub fn texts_tell_positions()
    ensures { TextsTellPositions }
{}

/// A text meets one of the refusals of `read_fen` at most.
pub fn one_refusal()
    ensures { OneRefusal }
{}

/// A FEN is at most 91 printable characters, with no quotation mark and no backslash.
pub fn fens_are_plain()
    ensures { FensArePlain }
{}

/// Two legal moves of a position never share a text.
pub fn texts_tell_moves()
    ensures { TextsTellMoves }
{}

/// A legal move has at most one text.
pub fn moves_tell_texts()
    ensures { MovesTellTexts }
{}

/// A text is 2 to 7 printable characters, with no space.
pub fn texts_are_plain()
    ensures { TextsArePlain }
{}
