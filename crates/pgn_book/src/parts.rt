//! Whether two positions are one.
ghost use Rattle.std.specs.Prelude.{◌≡◌, ◌↔◌, IsTrue};

use chess_rules::{Parts, Piece, Rights, Square};

fn same_piece(a: &Option<Piece>, b: &Option<Piece>) -> bool
    ensures { IsTrue result ↔ (a.now ≡ b.now) }
{
    *a == *b
}

fn same_board(a: &[Option<Piece>; 64], b: &[Option<Piece>; 64]) -> bool
    ensures { IsTrue result ↔ (a.now ≡ b.now) }
{
    for square in 0..64usize {
        if !same_piece(&a[square], &b[square]) {
            return false;
        }
    }
    true
}

fn same_rights(a: &Rights, b: &Rights) -> bool
    ensures { IsTrue result ↔ (a.now ≡ b.now) }
{
    a == b
}

fn same_target(a: &Option<Square>, b: &Option<Square>) -> bool
    ensures { IsTrue result ↔ (a.now ≡ b.now) }
{
    a == b
}

/// Whether both are the parts of one position.
pub fn same_parts(a: &Parts, b: &Parts) -> bool
    ensures { IsTrue result ↔ (a.now ≡ b.now) }
{
    same_board(&a.board, &b.board)
        && a.side.is(b.side)
        && same_rights(&a.rights, &b.rights)
        && same_target(&a.target, &b.target)
        && a.halfmove == b.halfmove
        && a.fullmove == b.fullmove
}
