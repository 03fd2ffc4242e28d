//! Worked positions. The positions and texts are those of the PGN standard, of known games, or worked out by hand.

use crate::known_positions::{expect_none, first_false, step};
use chess_rules::{Kind, Move, Position};
use chess_text::{FenError, SanError, read_fen, read_san, write_fen, write_san};
use std::alloc::{AllocError, Global};

/// Whether the position is written so.
fn is_fen(p: &Position, fen: &str) -> bool {
    write_fen(p).as_str() == fen
}

/// Whether the move is legal, and its SAN is this, which is read.
fn is_san(p: &Position, m: &Move, san: &str) -> bool {
    p.is_legal(*m) && write_san(p, *m).as_str() == san && read_san(p, san.as_bytes()).is_ok()
}

/// The number of the first move, by its squares' numbers, that is illegal or has another SAN.
fn first_unlike_san(p: &Position, rows: &[(u8, u8, &str)]) -> Option<usize> {
    for (i, (from, to, san)) in rows.iter().enumerate() {
        match step(*from, *to) {
            Some(m) => {
                if !is_san(p, &m, san) {
                    return Some(i);
                }
            }
            None => return Some(i),
        }
    }
    None
}

/// Whether the text is that of no legal move.
fn is_no_move(p: &Position, text: &str) -> bool {
    match read_san(p, text.as_bytes()) {
        Ok(_) => false,
        Err(SanError::NoSuchMove) => true,
    }
}

/// The number of the first text that is that of a legal move.
fn first_move_among(p: &Position, texts: &[&str]) -> Option<usize> {
    for (i, text) in texts.iter().enumerate() {
        if !is_no_move(p, text) {
            return Some(i);
        }
    }
    None
}

/// Whether each of these moves, by its squares' numbers, is legal with this SAN, and no text is that of a legal move.
fn has_moves(p: &Position, moves: &[(u8, u8, &str)], texts: &[&str]) -> bool {
    first_unlike_san(p, moves).is_none() && first_move_among(p, texts).is_none()
}

/// The FEN of a position, legal moves by their squares' numbers with their SANs, and texts of no legal move.
type Moves<'a> = (&'a str, &'a [(u8, u8, &'a str)], &'a [&'a str]);

/// The number of the first position that isn't read, or has other moves.
fn first_with_other_moves(rows: &[Moves<'_>]) -> Option<usize> {
    for (i, (fen, moves, texts)) in rows.iter().enumerate() {
        match read_fen(fen.as_bytes()) {
            Ok(p) => {
                if !has_moves(&p, moves, texts) {
                    return Some(i);
                }
            }
            Err(_) => return Some(i),
        }
    }
    None
}

/// The position after the move that the text names.
fn after(p: &Position, text: &str) -> Result<Position, SanError> {
    let m = read_san(p, text.as_bytes())?;
    Ok(p.play(m))
}

/// The position after the moves that the texts name, one after another.
fn after_all(p: &Position, texts: &[&str]) -> Result<Position, SanError> {
    let mut p = *p;
    for text in texts {
        p = after(&p, text)?;
    }
    Ok(p)
}

/// Whether the text is refused for this reason.
fn is_refused(text: &[u8], reason: FenError) -> bool {
    match read_fen(text) {
        Ok(_) => false,
        Err(error) => error == reason,
    }
}

/// The number of the first text that is read, or refused for another reason.
fn first_other_refusal(rows: &[(&[u8], FenError)]) -> Option<usize> {
    for (i, (text, reason)) in rows.iter().enumerate() {
        if !is_refused(text, *reason) {
            return Some(i);
        }
    }
    None
}

const START: &str = "rnbqkbnr/pppppppp/8/8/8/8/PPPPPPPP/RNBQKBNR w KQkq - 0 1";

/// Moves, and the position after each: PGN standard, section 16.1.4.
static FENS_AFTER_MOVES: [(&str, &str); 3] = [
    (
        "e4",
        "rnbqkbnr/pppppppp/8/8/4P3/8/PPPP1PPP/RNBQKBNR b KQkq e3 0 1",
    ),
    (
        "c5",
        "rnbqkbnr/pp1ppppp/8/2p5/4P3/8/PPPP1PPP/RNBQKBNR w KQkq c6 0 2",
    ),
    (
        "Nf3",
        "rnbqkbnr/pp1ppppp/8/2p5/4P3/5N2/PPPP1PPP/RNBQKB1R b KQkq - 1 2",
    ),
];

/// The number of the first move that isn't played, or after which the position is written otherwise.
fn first_unlike_fen(start: &Position, rows: &[(&str, &str)]) -> Option<usize> {
    let mut p = *start;
    for (i, (san, fen)) in rows.iter().enumerate() {
        match after(&p, san) {
            Ok(next) => p = next,
            Err(_) => return Some(i),
        }
        if !is_fen(&p, fen) {
            return Some(i);
        }
    }
    None
}

/// From the position of a FEN.
fn first_unlike_fen_from(start: &str, rows: &[(&str, &str)]) -> Option<usize> {
    match read_fen(start.as_bytes()) {
        Ok(p) => first_unlike_fen(&p, rows),
        Err(_) => Some(0),
    }
}

static LAST_COUNTERS: [(&str, &str); 1] = [("Kd8", "3k4/8/8/8/8/8/8/4K3 w - - 9999 9999")];

static FENS: [&str; 6] = [
    "rnbqkbnr/pppppppp/8/8/8/8/PPPPPPPP/RNBQKBNR w KQkq - 0 1",
    "r3k2r/p1ppqpb1/bn2pnp1/3PN3/1p2P3/2N2Q1p/PPPBBPPP/R3K2R w KQkq - 0 1",
    "8/2p5/3p4/KP5r/1R3p1k/8/4P1P1/8 w - - 0 1",
    "4k3/8/8/3pP3/8/8/8/4K3 w - d6 0 2",
    "rnb1kbnr/pppp1ppp/8/4p3/6Pq/5P2/PPPPP2P/RNBQKBNR w KQkq - 1 3",
    "4k3/8/8/8/8/8/8/R3K3 w Q - 99 120",
];

/// Whether the text is read, and its position is written so.
fn is_written(text: &str, fen: &str) -> bool {
    match read_fen(text.as_bytes()) {
        Ok(p) => is_fen(&p, fen),
        Err(_) => false,
    }
}

/// The number of the first text that is refused, or written otherwise than it was read.
fn first_rewritten(fens: &[&str]) -> Option<usize> {
    for (i, fen) in fens.iter().enumerate() {
        if !is_written(fen, fen) {
            return Some(i);
        }
    }
    None
}

static FIRST_REFUSALS: [(&[u8], FenError); 10] = [
    (b"x w - - 00 1", FenError::Counters),
    (b"4k3/8/8/8/8/8/8/4K3 w - - 0 10000", FenError::Counters),
    (b"4k3/8/8/8/8/8/8/4K3 w - - 0 0", FenError::Counters),
    (b"4k3/8/8/8/8/8/8/4K12 w - - 0 1", FenError::Placement),
    (b"4k3/8/8/8/8/8/8/*3K3 w - - 0 1", FenError::Placement),
    (b"8/8/8/8/8/8/8/4K3 w - - 0 1", FenError::Kings),
    (b"4k2P/8/8/8/8/8/8/4K3 w - - 0 1", FenError::Pawns),
    (b"4k3/8/8/8/8/8/8/4K3 w K - 0 1", FenError::Rights),
    (b"4k3/8/8/8/8/8/8/4K3 w - d6 0 1", FenError::EnPassant),
    (b"4k3/8/8/8/8/8/8/4RK2 w - - 0 1", FenError::Check),
];

static FORM_REFUSALS: [(&[u8], FenError); 11] = [
    (b"", FenError::Form),
    (b"4k3/8/8/8/8/8/8/4K3 w - - 0 1 ", FenError::Form),
    (b" 4k3/8/8/8/8/8/8/4K3 w - - 0 1", FenError::Form),
    (b"4k3/8/8/8/8/8/8/4K3  w - - 0 1", FenError::Form),
    (b"4k3/8/8/8/8/8/8/4K3 W - - 0 1", FenError::Form),
    (b"4k3/8/8/8/8/8/8/4K3 w qK - 0 1", FenError::Form),
    (b"4k3/8/8/8/8/8/8/4K3 w KK - 0 1", FenError::Form),
    (b"4k3/8/8/8/8/8/8/4K3 w - e4 0 1", FenError::Form),
    (b"4k3/8/8/8/8/8/8/4K3 w - i3 0 1", FenError::Form),
    (b"4k3/8/8/8/8/8/8/4K3 w - - +1 1", FenError::Form),
    (b"4k3/8/8/8/8/8/8/4K3 w - - 0 1\n", FenError::Form),
];

static FOUR_FIELD_REFUSALS: [(&[u8], FenError); 4] = [
    (b"4k3/8/8/8/8/8/8/4K3 w - - ", FenError::Form),
    (b"4k3/8/8/8/8/8/8/4K3 w - - 0", FenError::Form),
    (b"4k3/8/8/8/8/8/8/4K3 w - - bm Ke2;", FenError::Form),
    (b"8/8/8/8/8/8/8/4K3 w - -", FenError::Kings),
];

static PINNED_KNIGHT: [Moves<'static>; 1] = [(
    "4r2k/8/8/8/8/8/4N3/1N2K3 w - - 0 1",
    &[(57, 42, "Nc3")],
    &["Nbc3"],
)];

static RIVALS: [Moves<'static>; 2] = [
    (
        "7k/8/8/1N6/8/8/8/1N2K3 w - - 0 1",
        &[(57, 42, "N1c3"), (25, 42, "N5c3")],
        &[],
    ),
    (
        "8/7k/8/Q7/8/8/8/Q3Q2K w - - 0 1",
        &[(56, 28, "Qa1e5"), (24, 28, "Q5e5"), (60, 28, "Qee5")],
        &[],
    ),
];

static CASTLING: [Moves<'static>; 2] = [
    (
        "4k3/8/8/8/8/8/1r6/R3K3 w Q - 0 1",
        &[(60, 58, "O-O-O")],
        &["0-0-0", "O-O-O+", "O-O", "", "O", "Kc1"],
    ),
    ("4k3/8/8/8/8/8/3r4/R3K3 w Q - 0 1", &[], &["O-O-O"]),
];

/// FENs of positions, and the SANs of all their legal moves.
static LISTS: [(&str, &[&str]); 3] = [
    (
        START,
        &[
            "a4", "a3", "b4", "b3", "c4", "c3", "d4", "d3", "e4", "e3", "f4", "f3", "g4", "g3",
            "h4", "h3", "Na3", "Nc3", "Nf3", "Nh3",
        ],
    ),
    (
        "8/4P2k/8/8/8/8/8/4K3 w - - 0 1",
        &[
            "e8=Q", "e8=R", "e8=B", "e8=N", "Kd2", "Ke2", "Kf2", "Kd1", "Kf1",
        ],
    ),
    (
        "rnb1kbnr/pppp1ppp/8/4p3/6Pq/5P2/PPPPP2P/RNBQKBNR w KQkq - 1 3",
        &[],
    ),
];

/// The number of the first move that is illegal or has another SAN than the text with its number, or the first number
/// that only one of both lists has.
fn first_unlike_text(p: &Position, moves: &[Move], texts: &[&str]) -> Option<usize> {
    for (i, m) in moves.iter().enumerate() {
        let Some(text) = texts.get(i) else {
            return Some(i);
        };
        if !is_san(p, m, text) {
            return Some(i);
        }
    }
    if moves.len() == texts.len() {
        None
    } else {
        Some(moves.len())
    }
}

/// Whether these are the SANs of the position's legal moves, in the order of `legal_moves`.
fn has_list(alloc: Global, p: &Position, texts: &[&str]) -> Result<bool, AllocError> {
    let moves = p.legal_moves(alloc)?;
    Ok(first_unlike_text(p, &moves, texts).is_none())
}

/// The number of the first position that isn't read, or has another list of moves.
fn first_with_other_list(
    alloc: Global,
    rows: &[(&str, &[&str])],
) -> Result<Option<usize>, AllocError> {
    for (i, (fen, texts)) in rows.iter().enumerate() {
        match read_fen(fen.as_bytes()) {
            Ok(p) => {
                if !has_list(alloc, &p, texts)? {
                    return Ok(Some(i));
                }
            }
            Err(_) => return Ok(Some(i)),
        }
    }
    Ok(None)
}

fn mate_is_marked() -> bool {
    match after_all(&Position::initial(), &["f3", "e5", "g4"]) {
        Ok(p) => has_moves(&p, &[(3, 39, "Qh4#")], &["Qh4+", "Qh4"]),
        Err(_) => false,
    }
}

static EN_PASSANT: [Moves<'static>; 1] = [(
    "4k3/8/8/3pP3/8/8/8/4K3 w - d6 0 2",
    &[(28, 19, "exd6")],
    &["d6", "exd6e.p.", "e5d6", "e5xd6", "exd6 "],
)];

/// Whether the text is that of a legal move that promotes to this kind.
fn promotes_to(p: &Position, text: &str, kind: Kind) -> bool {
    match read_san(p, text.as_bytes()) {
        Ok(m) => m.promotion == Some(kind),
        Err(_) => false,
    }
}

fn promotion_is_read() -> bool {
    match read_fen(b"8/4P2k/8/8/8/8/8/4K3 w - - 0 1") {
        Ok(p) => promotes_to(&p, "e8=N", Kind::Knight)
            && has_moves(&p, &[], &["e8", "e8N", "e8=K", "e8=P", "e8=n", "e8=Q+"]),
        Err(_) => false,
    }
}

/// Fischer and Spassky, Belgrade 1992, the example of the PGN standard, section 2.3.
const BELGRADE: &str =
    "e4 e5 Nf3 Nc6 Bb5 a6 Ba4 Nf6 O-O Be7 Re1 b5 Bb3 d6 c3 O-O h3 Nb8 d4 Nbd7 c4 c6 cxb5 axb5 Nc3 Bb7 Bg5 b4 Nb1 h6 Bh4 c5 dxe5 Nxe4 Bxe7 Qxe7 exd6 Qf6 Nbd2 Nxd6 Nc4 Nxc4 Bxc4 Nb6 Ne5 Rae8 Bxf7+ Rxf7 Nxf7 Rxe1+ Qxe1 Kxf7 Qe3 Qg5 Qxg5 hxg5 b3 Ke6 a3 Kd6 axb4 cxb4 Ra5 Nd5 f3 Bc8 Kf2 Bf5 Ra7 g6 Ra6+ Kc5 Ke1 Nf4 g3 Nxh3 Kd2 Kb5 Rd6 Kc5 Ra6 Nf2 g4 Bd3 Re6";

/// The position after the move that the text names, where its SAN is the text again.
fn after_again(p: &Position, text: &str) -> Option<Position> {
    match read_san(p, text.as_bytes()) {
        Ok(m) => {
            if is_san(p, &m, text) {
                Some(p.play(m))
            } else {
                None
            }
        }
        Err(_) => None,
    }
}

/// Plays a game: how many plies it has and the position after them, or the number of the first text that isn't that of
/// a move.
fn play_game(game: &str) -> Result<(u32, Position), u32> {
    let mut p = Position::initial();
    let mut plies = 0u32;
    for text in game.split(' ') {
        match after_again(&p, text) {
            Some(next) => p = next,
            None => return Err(plies),
        }
        plies = plies.saturating_add(1);
    }
    Ok((plies, p))
}

/// Whether the game has so many plies, and the position after them is written so.
fn leads_to(game: &str, plies: u32, fen: &str) -> Result<bool, u32> {
    match play_game(game) {
        Ok((played, p)) => Ok(played == plies && is_fen(&p, fen)),
        Err(ply) => Err(ply),
    }
}

#[test]
fn texts_are_written_and_read(rt: HostRuntime) {
    let start = Position::initial();
    let last = "4k3/8/8/8/8/8/8/4K3 b - - 9999 9999";
    let kings = "4k3/8/8/8/8/8/8/4K3 w - - 0 1";
    let belgrade = "8/8/4R1p1/2k3p1/1p4P1/1P1b1P2/3K1n2/8 b - - 2 43";
    let holds = [
        is_fen(&start, START),
        first_unlike_fen(&start, &FENS_AFTER_MOVES).is_none(),
        // counters stand still at 9999
        first_unlike_fen_from(last, &LAST_COUNTERS).is_none(),
        first_rewritten(&FENS).is_none(),
        first_other_refusal(&FIRST_REFUSALS).is_none(),
        first_other_refusal(&FORM_REFUSALS).is_none(),
        // four fields have the counters 0 and 1
        is_written("4k3/8/8/8/8/8/8/4K3 w - -", kings),
        first_other_refusal(&FOUR_FIELD_REFUSALS).is_none(),
        // a pinned piece is no rival
        first_with_other_moves(&PINNED_KNIGHT).is_none(),
        // the origin is named as far as needed
        first_with_other_moves(&RIVALS).is_none(),
        first_with_other_moves(&CASTLING).is_none(),
        // legal moves are written in their order
        first_with_other_list(rt.alloc(), &LISTS) == Ok(None),
        mate_is_marked(),
        // en passant has the pawn's file
        first_with_other_moves(&EN_PASSANT).is_none(),
        promotion_is_read(),
        leads_to(BELGRADE, 85, belgrade) == Ok(true),
    ];
    expect_none(&rt, first_false(&holds));
}
