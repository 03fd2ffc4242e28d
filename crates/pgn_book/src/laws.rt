//! What holds of all games and texts, each law as the contract of a function that does nothing.
ghost use Rattle.pgn_book.specs.Laws.{TextsTellGames, GamesTellTexts, TextsAreShort};

use chess_text::laws::{
    fens_are_plain, moves_tell_texts, texts_are_plain, texts_tell_moves, texts_tell_positions,
};

/// No two games have one text.
pub fn one_game()
    ensures { TextsTellGames }
{
    // For its clause: the laws that this one rests on.
    texts_are_plain();
    texts_tell_moves();
    texts_tell_positions();
}

/// A game has at most one text.
pub fn one_text()
    ensures { GamesTellTexts }
{
    // For its clause: the laws that this one rests on.
    texts_are_plain();
    moves_tell_texts();
}

/// A text is no longer than its plies allow.
pub fn texts_are_short()
    ensures { TextsAreShort }
{
    // For its clause: the laws that this one rests on.
    texts_are_plain();
    fens_are_plain();
}
