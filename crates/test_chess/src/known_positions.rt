//! Known positions, from outside the proofs.

use chess_rules::{Invalid, Kind, Move, Parts, Piece, Position, Rights, Side, Square, Status};
use std::alloc::{AllocError, Global};
use std::process::Abort;

/// Fails with the number of the first row that isn't as it says, if there is one.
pub fn expect_none(rt: &impl Abort, first: Option<usize>) {
    assert_eq!(rt; first, None);
}

/// The number of the first that doesn't hold.
pub fn first_false(holds: &[bool]) -> Option<usize> {
    for (i, holds) in holds.iter().enumerate() {
        if !*holds {
            return Some(i);
        }
    }
    None
}

const NO_RIGHTS: Rights = Rights {
    white_king: false,
    white_queen: false,
    black_king: false,
    black_queen: false,
};

/// A move that is no promotion, by its squares' numbers.
pub fn step(from: u8, to: u8) -> Option<Move> {
    Some(Move {
        from: Square::new(from)?,
        to: Square::new(to)?,
        promotion: None,
    })
}

fn kind_of(letter: u8) -> Option<Kind> {
    match letter.to_ascii_lowercase() {
        b'p' => Some(Kind::Pawn),
        b'r' => Some(Kind::Rook),
        b'n' => Some(Kind::Knight),
        b'b' => Some(Kind::Bishop),
        b'k' => Some(Kind::King),
        b'q' => Some(Kind::Queen),
        _ => None,
    }
}

fn piece_of(letter: u8) -> Option<Piece> {
    let side = if letter.is_ascii_uppercase() {
        Side::White
    } else {
        Side::Black
    };
    let kind = kind_of(letter)?;
    Some(Piece { side, kind })
}

/// Parts without rights and target at the first move. The pieces are written from a8 to h1.
fn parts_of(pieces: &[u8; 64], side: Side) -> Parts {
    let mut board = [None; 64];
    for square in 0..64usize {
        board[square] = piece_of(pieces[square]);
    }
    Parts {
        board,
        side,
        rights: NO_RIGHTS,
        target: None,
        halfmove: 0,
        fullmove: 1,
    }
}

fn with_counters(pieces: &[u8; 64], side: Side, halfmove: u16, fullmove: u16) -> Parts {
    let mut parts = parts_of(pieces, side);
    parts.halfmove = halfmove;
    parts.fullmove = fullmove;
    parts
}

/// The position after the move, if it is legal.
fn played(position: &Position, m: &Move) -> Option<Position> {
    if position.is_legal(m.copy()) {
        Some(position.play(m.copy()))
    } else {
        None
    }
}

/// The position after the move between the squares with these numbers, if it is legal.
fn stepped(position: &Position, from: u8, to: u8) -> Option<Position> {
    played(position, &step(from, to)?)
}

const KINGS: &[u8; 64] = b"....k.......................................................K...";

const ONE_KING: &[u8; 64] = b"............................................................K...";

/// The number, the file and the rank of the square with this number.
fn square(number: u8) -> Option<(u8, u8, u8)> {
    let square = Square::new(number)?;
    Some((square.number(), square.file(), square.rank()))
}

/// Pieces from a8 to h1 with White to move, the halfmove clock, the fullmove number, whether White may castle short,
/// the number of the en passant target, and why these parts are refused, if they are.
type Refused<'a> = (&'a [u8; 64], u16, u16, bool, Option<u8>, Option<Invalid>);

/// Whether the parts are refused for this reason, or not at all.
fn is_refused(row: &Refused<'_>) -> bool {
    let (pieces, halfmove, fullmove, castles, target, reason) = row;
    let mut parts = with_counters(pieces, Side::White, *halfmove, *fullmove);
    parts.rights.white_king = *castles;
    parts.target = target.and_then(Square::new);
    Position::new(parts).err() == *reason
}

/// The number of the first row whose parts are answered otherwise.
fn first_other_refusal(rows: &[Refused<'_>]) -> Option<usize> {
    for (i, row) in rows.iter().enumerate() {
        if !is_refused(row) {
            return Some(i);
        }
    }
    None
}

static COUNTERS: [Refused<'static>; 4] = [
    (KINGS, 10000, 1, false, None, Some(Invalid::Counters)),
    (KINGS, 0, 0, false, None, Some(Invalid::Counters)),
    (KINGS, 0, 10000, false, None, Some(Invalid::Counters)),
    (ONE_KING, 10000, 1, false, None, Some(Invalid::Counters)),
];

const PAWN_ON_LAST: &[u8; 64] = b"....k..P....................................................K...";

const ROOK_GIVES_CHECK: &[u8; 64] =
    b"....k.......................................................RK..";

static CONDITIONS: [Refused<'static>; 6] = [
    (KINGS, 0, 1, false, None, None),
    (ONE_KING, 0, 1, false, None, Some(Invalid::Kings)),
    (PAWN_ON_LAST, 0, 1, false, None, Some(Invalid::Pawns)),
    (KINGS, 0, 1, true, None, Some(Invalid::Rights)),
    // d6
    (KINGS, 0, 1, false, Some(19), Some(Invalid::EnPassant)),
    (ROOK_GIVES_CHECK, 0, 1, false, None, Some(Invalid::Check)),
];

/// Whether White, with the right to it, may castle on the queen side.
fn castles_long(pieces: &[u8; 64]) -> Option<bool> {
    let mut parts = parts_of(pieces, Side::White);
    parts.rights.white_queen = true;
    let castles = step(60, 58)?;
    let position = Position::new(parts).ok()?;
    Some(position.is_legal(castles))
}

/// Whether the position has these parts, and this board.
fn has_parts(position: &Position, wanted: &Parts) -> bool {
    *position.parts() == *wanted && *position.board() == wanted.board
}

/// Whether 1. e4 sets the target e3.
fn opening_sets_the_target(initial: &Position) -> bool {
    let pieces = b"rnbqkbnrpppppppp....................P...........PPPP.PPPRNBQKBNR";
    let mut wanted = parts_of(pieces, initial.parts().side.other());
    wanted.rights = initial.parts().rights;
    wanted.target = Square::new(44);
    match stepped(initial, 52, 36) {
        Some(next) => has_parts(&next, &wanted),
        None => false,
    }
}

/// The position after Kd8 at the last counters.
fn after_the_last_counters() -> Option<Position> {
    let position = Position::new(with_counters(KINGS, Side::Black, 9999, 9999)).ok()?;
    stepped(&position, 4, 3)
}

fn last_counters_stand_still() -> bool {
    let pieces = b"...k........................................................K...";
    match after_the_last_counters() {
        Some(next) => has_parts(&next, &with_counters(pieces, Side::White, 9999, 9999)),
        None => false,
    }
}

/// The codes of the first eight squares and of the last eight.
static ENDS: [u8; 16] = [8, 9, 10, 12, 11, 10, 9, 8, 2, 3, 4, 6, 5, 4, 3, 2];

/// The code on the square with this number in the initial position.
fn first_code(square: usize) -> u8 {
    match square {
        0..8 => ENDS[square],
        8..16 => 7,
        48..56 => 1,
        56..64 => ENDS[square - 48],
        _ => 0,
    }
}

/// The number of the first square that shows another code than in the initial position.
fn first_other_code(picture: &[u8; 64]) -> Option<usize> {
    for square in 0..64usize {
        if picture[square] != first_code(square) {
            return Some(square);
        }
    }
    None
}

/// The squares' numbers of the first moves, in the order of `legal_moves`.
static FIRST_MOVES: [(u8, u8); 20] = [
    (48, 32),
    (48, 40),
    (49, 33),
    (49, 41),
    (50, 34),
    (50, 42),
    (51, 35),
    (51, 43),
    (52, 36),
    (52, 44),
    (53, 37),
    (53, 45),
    (54, 38),
    (54, 46),
    (55, 39),
    (55, 47),
    (57, 40),
    (57, 42),
    (62, 45),
    (62, 47),
];

/// The number of the first move that is another one than the first move with its number.
fn first_other_move(moves: &[Move]) -> Option<usize> {
    for (i, m) in moves.iter().enumerate() {
        let Some((from, to)) = FIRST_MOVES.get(i) else {
            return Some(i);
        };
        if m.from.number() != *from || m.to.number() != *to || m.promotion.is_some() {
            return Some(i);
        }
    }
    None
}

fn count_moves(alloc: Global, position: &Position) -> Result<usize, AllocError> {
    Ok(position.legal_moves(alloc)?.len())
}

/// How many replies there are to these moves; none where one of them is illegal.
fn count_replies(
    alloc: Global,
    position: &Position,
    moves: &[Move],
) -> Result<Option<usize>, AllocError> {
    let mut replies = 0usize;
    for m in moves {
        match played(position, m) {
            Some(next) => replies = replies.saturating_add(count_moves(alloc, &next)?),
            None => return Ok(None),
        }
    }
    Ok(Some(replies))
}

/// Of the initial position: whether it has the first moves in their order, how many they are, and how many replies they
/// have.
fn listed(alloc: Global, initial: &Position) -> Result<(bool, usize, Option<usize>), AllocError> {
    let moves = initial.legal_moves(alloc)?;
    let replies = count_replies(alloc, initial, &moves)?;
    Ok((first_other_move(&moves).is_none(), moves.len(), replies))
}

/// Whether the position of these parts has this status, the side to move is in check or isn't, and no move is legal.
fn ends(alloc: Global, parts: &Parts, status: Status, in_check: bool) -> Result<bool, AllocError> {
    let Ok(position) = Position::new(*parts) else {
        return Ok(false);
    };
    let moves = count_moves(alloc, &position)?;
    Ok(position.status() == status && position.in_check() == in_check && moves == 0)
}

fn mated() -> Parts {
    let mate = b"rnb.kbnrpppp.ppp............p.........Pq.....P..PPPPP..PRNBQKBNR";
    let mut parts = with_counters(mate, Side::White, 1, 3);
    parts.rights = Position::initial().parts().rights;
    parts
}

#[test]
fn positions_are_known(rt: HostRuntime) {
    let initial = Position::initial();
    let b1_attacked = b"....k............................................r......R...K...";
    let d1_attacked = b"....k..............................................r....R...K...";
    let stale = b".......k.....Q........K.........................................";
    let stuck = parts_of(stale, Side::Black);
    let holds = [
        // squares have the numbers 0 to 63
        square(63) == Some((63, 7, 1)),
        square(0) == Some((0, 0, 8)),
        Square::new(64).is_none(),
        // counters have a range
        first_other_refusal(&COUNTERS).is_none(),
        // the first broken condition is answered
        first_other_refusal(&CONDITIONS).is_none(),
        // an attacked b1 is no bar to castling
        castles_long(b1_attacked) == Some(true),
        castles_long(d1_attacked) == Some(false),
        opening_sets_the_target(&initial),
        last_counters_stand_still(),
        first_other_code(&initial.picture()).is_none(),
        listed(rt.alloc(), &initial) == Ok((true, 20, Some(400))),
        // checkmate and stalemate end a game
        ends(rt.alloc(), &mated(), Status::Checkmate, true) == Ok(true),
        ends(rt.alloc(), &stuck, Status::Stalemate, false) == Ok(true),
        initial.status() == Status::Running,
    ];
    expect_none(&rt, first_false(&holds));
}
