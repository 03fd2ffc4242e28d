//! The example on the page of `chess_text`.

use arrayvec::ArrayString;
use chess_rules::Position;
use chess_text::{read_san, write_fen};

/// The FEN after a move that is written in SAN, where it is legal.
fn fen_after(p: &Position, san: &str) -> Option<ArrayString<128>> {
    match read_san(p, san.as_bytes()) {
        Ok(m) => Some(write_fen(&p.play(m))),
        Err(_) => None,
    }
}

/// The FEN is that of the PGN standard, section 16.1.4.
#[test]
fn a_pawn_is_pushed(rt: HostRuntime) {
    let fen = fen_after(&Position::initial(), "e4");
    let pushed = "rnbqkbnr/pppppppp/8/8/4P3/8/PPPP1PPP/RNBQKBNR b KQkq e3 0 1";
    assert!(rt; matches!(&fen, Some(text) if text.as_str() == pushed));
}
