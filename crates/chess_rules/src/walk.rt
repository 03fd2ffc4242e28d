//! Looking outwards from a square: which pieces of a side attack it.
ghost use Rattle.std.specs.Prelude.{◌≡◌, ◌≢◌, ◌+◌, ◌%◌, ◌/◌, ◌<◌, ◌↔◌, IsNone, IfSome, IfNone, IsTrue};
ghost use Rattle.chess_rules.specs.Board.{Ahead, on, piece_of};
ghost use Rattle.chess_rules.specs.Attack.{Attacks, AttacksFrom, Ranges, IsJump, IsPawnDiagonal};
ghost use Rattle.chess_rules.specs.Inside.Walk.{IsAtEdge, IsOpen, IsFirst, IsHitFrom, IsNotHit, IsJumped, JumpsFrom, NoneJumpsOver, PointsOnly, PointsNowhere, opposite};

use crate::lines::Direction;
use crate::pieces::{Kind, Piece, Side};

const DIRECTIONS: [Direction; 8] = [
    Direction::North,
    Direction::South,
    Direction::East,
    Direction::West,
    Direction::NorthEast,
    Direction::NorthWest,
    Direction::SouthEast,
    Direction::SouthWest,
];

fn opposite_of(direction: Direction) -> Direction
    ensures { result ≡ opposite direction }
{
    match direction {
        Direction::North => Direction::South,
        Direction::South => Direction::North,
        Direction::East => Direction::West,
        Direction::West => Direction::East,
        Direction::NorthEast => Direction::SouthWest,
        Direction::NorthWest => Direction::SouthEast,
        Direction::SouthEast => Direction::NorthWest,
        Direction::SouthWest => Direction::NorthEast,
    }
}

/// The next square in this direction, if the board has one.
fn neighbour(direction: Direction, square: u8) -> Option<u8>
    requires { square < 64 }
    ensures none { IsNone result ↔ IsAtEdge direction square }
    ensures in_range { IfSome result (λ t. t < 64) }
    ensures ahead { IfSome result (λ t. Ahead direction 1 square t) }
{
    let file = square % 8;
    let row = square / 8;
    match direction {
        Direction::North if row > 0 => Some(square - 8),
        Direction::South if row < 7 => Some(square + 8),
        Direction::East if file < 7 => Some(square + 1),
        Direction::West if file > 0 => Some(square - 1),
        Direction::NorthEast if row > 0 && file < 7 => Some(square - 7),
        Direction::NorthWest if row > 0 && file > 0 => Some(square - 9),
        Direction::SouthEast if row < 7 && file < 7 => Some(square + 9),
        Direction::SouthWest if row < 7 && file > 0 => Some(square + 7),
        _ => None,
    }
}

/// Whether such a piece attacks along a line in this direction at this distance.
fn ranges(side: Side, kind: Kind, direction: Direction, distance: u8) -> bool
    ensures { IsTrue result ↔ Ranges side kind direction distance }
{
    let straight = matches!(
        direction,
        Direction::North | Direction::South | Direction::East | Direction::West
    );
    match kind {
        Kind::Rook => straight,
        Kind::Bishop => !straight,
        Kind::Queen => true,
        Kind::King => distance == 1,
        Kind::Pawn => distance == 1 && is_pawn_diagonal(side, direction),
        Kind::Knight => false,
    }
}

fn is_pawn_diagonal(side: Side, direction: Direction) -> bool
    ensures { IsTrue result ↔ IsPawnDiagonal side direction }
{
    match side {
        Side::White => matches!(direction, Direction::NorthEast | Direction::NorthWest),
        Side::Black => matches!(direction, Direction::SouthEast | Direction::SouthWest),
    }
}

/// A piece that is seen from a square.
#[derive(Clone, Copy)]
struct Seen {
    piece: Piece,
    distance: u8,
    square: u8,
}

/// The first piece from a square in this direction.
fn first_piece(board: &[Option<Piece>; 64], square: u8, direction: Direction) -> Option<Seen>
    requires { square < 64 }
    ensures none { IfNone result (IsOpen board.now direction square) }
    ensures some { IfSome result (λ seen. IsFirst board.now direction square seen) }
{
    let mut at = square;
    for steps in 0..8u8 {
        let Some(next) = neighbour(direction, at) else {
            return None;
        };
        at = next;
        if let Some(piece) = board[at as usize] {
            return Some(Seen {
                piece,
                distance: steps + 1,
                square: at,
            });
        }
    }
    None
}

/// The square of the first piece in this direction, if it is of this side and attacks the square.
fn hit(board: &[Option<Piece>; 64], side: Side, square: u8, direction: Direction) -> Option<u8>
    requires { square < 64 }
    ensures none { IfNone result (IsNotHit board.now side direction square) }
    ensures some { IfSome result (IsHitFrom board.now side direction square) }
{
    let seen = first_piece(board, square, direction)?;
    if seen.piece.side.is(side)
        && ranges(side, seen.piece.kind, opposite_of(direction), seen.distance)
    {
        Some(seen.square)
    } else {
        None
    }
}

/// The direction in which another square of the same file may lie.
fn along_file(square: u8, other: u8) -> Direction
    requires { square % 8 ≡ other % 8 }
    ensures { PointsOnly result square other }
{
    if other / 8 < square / 8 {
        Direction::North
    } else {
        Direction::South
    }
}

/// The direction in which another square of the same row may lie.
fn along_row(square: u8, other: u8) -> Direction
    requires { square / 8 ≡ other / 8 }
    ensures { PointsOnly result square other }
{
    if square % 8 < other % 8 {
        Direction::East
    } else {
        Direction::West
    }
}

/// The direction in which a square of another file and row may lie.
fn along_diagonal(square: u8, other: u8) -> Direction
    requires files { square % 8 ≢ other % 8 }
    requires rows { square / 8 ≢ other / 8 }
    ensures { PointsOnly result square other }
{
    let east = square % 8 < other % 8;
    let north = other / 8 < square / 8;
    match (east, north) {
        (true, true) => Direction::NorthEast,
        (true, false) => Direction::SouthEast,
        (false, true) => Direction::NorthWest,
        (false, false) => Direction::SouthWest,
    }
}

/// The one direction in which the other square may lie, if there is one.
fn direction_to(square: u8, other: u8) -> Option<Direction>
    ensures some { IfSome result (λ d. PointsOnly d square other) }
    ensures none { IfNone result (PointsNowhere square other) }
{
    let (file, row) = (square % 8, square / 8);
    let (to_file, to_row) = (other % 8, other / 8);
    if file == to_file {
        return Some(along_file(square, other));
    }
    if row == to_row {
        return Some(along_row(square, other));
    }
    if file.abs_diff(to_file) == row.abs_diff(to_row) {
        return Some(along_diagonal(square, other));
    }
    None
}

/// Whether the piece on `from` is seen in this direction, is of this side and attacks the square.
fn is_hit_from(
    board: &[Option<Piece>; 64],
    side: Side,
    square: u8,
    direction: Direction,
    from: u8,
) -> bool
    requires { square < 64 }
    ensures { IsTrue result ↔ IsHitFrom board.now side direction square from }
{
    match hit(board, side, square, direction) {
        Some(found) => found == from,
        None => false,
    }
}

/// Whether a knight's jump leads from one square to the other.
fn is_jump(from: u8, to: u8) -> bool
    ensures { IsTrue result ↔ IsJump from to }
{
    let files = (from % 8).abs_diff(to % 8);
    let rows = (from / 8).abs_diff(to / 8);
    (files == 1 && rows == 2) || (files == 2 && rows == 1)
}

/// Whether a knight of this side stands on the one square and jumps to the other.
fn jumps_from(board: &[Option<Piece>; 64], side: Side, from: u8, square: u8) -> bool
    requires { from < 64 }
    ensures { IsTrue result ↔ JumpsFrom board.now side from square }
{
    if let Some(piece) = board[from as usize]
        && piece.kind.is(Kind::Knight)
        && piece.side.is(side)
    {
        is_jump(from, square)
    } else {
        false
    }
}

/// Whether a knight of this side jumps to the square from so far before or after it, by number.
fn is_jumped_over(board: &[Option<Piece>; 64], side: Side, square: u8, distance: u8) -> bool
    requires square { square < 64 }
    requires distance { distance < 64 }
    ensures some { IsTrue result → IsJumped board.now side square }
    ensures none { ¬ IsTrue result → NoneJumpsOver board.now side square distance }
{
    if jumps_from(board, side, square.saturating_sub(distance), square) {
        return true;
    }
    jumps_from(board, side, (square + distance).min(63), square)
}

/// Whether a knight of this side jumps to the square.
fn is_jumped(board: &[Option<Piece>; 64], side: Side, square: u8) -> bool
    requires { square < 64 }
    ensures { IsTrue result ↔ IsJumped board.now side square }
{
    if is_jumped_over(board, side, square, 6) || is_jumped_over(board, side, square, 10) {
        return true;
    }
    if is_jumped_over(board, side, square, 15) || is_jumped_over(board, side, square, 17) {
        return true;
    }
    false
}

/// Whether a piece of this side attacks the square.
pub fn is_attacked(board: &[Option<Piece>; 64], side: Side, square: u8) -> bool
    requires { square < 64 }
    ensures { IsTrue result ↔ Attacks board.now side square }
{
    for direction in DIRECTIONS {
        if let Some(_) = hit(board, side, square, direction) {
            return true;
        }
    }
    is_jumped(board, side, square)
}

/// Whether the piece on the one square, of this side and kind, attacks the other square.
pub fn attacks_from(board: &[Option<Piece>; 64], side: Side, kind: Kind, from: u8, to: u8) -> bool
    requires from { from < 64 }
    requires to { to < 64 }
    requires stands { on board.now from ≡ piece_of side kind }
    ensures { IsTrue result ↔ AttacksFrom board.now side kind from to }
{
    if kind.is(Kind::Knight) {
        return is_jump(from, to);
    }
    match direction_to(to, from) {
        Some(direction) => is_hit_from(board, side, to, direction, from),
        None => false,
    }
}
