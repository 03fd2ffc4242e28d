//! What holds of all positions and moves, each law as the contract of a function that does nothing.
ghost use Rattle.chess_rules.specs.Laws.{CodesTellPieces, PiecesTellMoves, MovesMovePieces, MovesStayValid, PicturesTellBoards, PicturesTellMoves};

/// The pieces of the mover after a legal move stand on their squares after another legal move only where both are one.
pub fn pieces_tell_moves()
    ensures { PiecesTellMoves }
{}

/// Two legal moves of a valid position never give one picture.
pub fn pictures_tell_moves()
    ensures { PicturesTellMoves }
{}

/// The position after a legal move of a valid position is valid.
pub fn moves_stay_valid()
    ensures { MovesStayValid }
{}

/// A code stands for one piece, or for none.
pub fn codes_tell_pieces()
    ensures { CodesTellPieces }
{}

/// Two positions of one picture have one board.
pub fn pictures_tell_boards()
    ensures { PicturesTellBoards }
{}

/// A legal move of a valid position moves one piece, or a king and a rook, and leaves all else where it stood.
pub fn moves_move_pieces()
    ensures { MovesMovePieces }
{}
