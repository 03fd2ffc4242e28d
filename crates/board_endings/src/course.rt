//! How far a game has come, and what is told of its moves.
ghost use Rattle.std.specs.Prelude.{◌≡◌, ◌↔◌, ◌||◌, ◌&&◌, ◌==◌, ◌+◌, ◌<◌, ℕ, List, [], IsTrue, length};
ghost use Rattle.std.specs.Str.{bytes_eq};
ghost use Rattle.chess_rules.specs.declared.parts.Parts.{Parts};
ghost use Rattle.chess_rules.specs.Picture.{picture};
ghost use Rattle.settle_core.specs.declared.plies.Ply.{Ply as PlyOf};
ghost use Rattle.settle_core.specs.Masks.{IsDiff};
ghost use Rattle.board_alarms.specs.Hearing.{AreMoved};
ghost use Rattle.board_alarms.specs.Plies.{position};
ghost use Rattle.board_endings.specs.Keeping.{KeepsCourse};
ghost use Rattle.board_endings.specs.Moves.{TellsMove, brings_home as brings_home_of, brings_rook as brings_rook_of, castles_by, goes_two, is_king as is_king_of, is_rook as is_rook_of, last_ply, move_of};

use chess_rules::Position;
use game_over::Move;
use settle_core::{Ply, Settler};

/// How far a game has come.
#[derive(Clone, Copy)]
pub struct Course {
    /// How many plies it has.
    count: u64,
    /// The last one.
    last: Option<Ply>,
    /// The last one is castling.
    castled: bool,
    /// The game's position is that at its start.
    is_at_start: bool,
    /// The codes of the position at the start.
    pub start: [u8; 64],
    /// Those of the position that the plies lead to.
    here: [u8; 64],
}

fn is_king(code: u8) -> bool
    ensures { result ≡ is_king_of code }
{
    code == 5 || code == 11
}

fn is_rook(code: u8) -> bool
    ensures { result ≡ is_rook_of code }
{
    code == 2 || code == 8
}

/// Whether a move goes two squares along its rank.
fn is_two(from: u8, to: u8) -> bool
    requires { (from < 64) × (to < 64) }
    ensures { result ≡ goes_two from to }
{
    to == from + 2 || from == to + 2
}

fn both(one: bool, other: bool) -> bool
    ensures { result ≡ (one && other) }
{
    one && other
}

fn either(one: bool, other: bool) -> bool
    ensures { result ≡ (one || other) }
{
    one || other
}

fn is_same(one: u8, other: u8) -> bool
    ensures { result ≡ (one == other) }
{
    one == other
}

fn last_of(settler: &Settler) -> Option<Ply>
    ensures { result ≡ last_ply settler.now.score.plies }
{
    match settler.moves().last() {
        Some(last) => Some(*last),
        None => None,
    }
}

/// Whether the last ply is castling, if it leads to this position.
fn castles(here: &[u8; 64], last: &Option<Ply>) -> bool
    ensures { result ≡ castles_by here.now last.now }
{
    match last {
        None => false,
        Some(ply) => {
            let from = ply.mv.from.number();
            let to = ply.mv.to.number();
            both(is_king(here[to as usize]), is_two(from, to))
        }
    }
}

/// Whether it brought a rook to its square.
fn brings_rook(here: &[u8; 64], last: &Option<Ply>) -> bool
    ensures { result ≡ brings_rook_of here.now last.now }
{
    match last {
        None => false,
        Some(ply) => {
            let to = ply.mv.to.number();
            is_rook(here[to as usize])
        }
    }
}

/// Whether it brought a piece to a square that has such a piece at the start.
fn brings_home(start: &[u8; 64], here: &[u8; 64], last: &Option<Ply>) -> bool
    ensures { result ≡ brings_home_of start.now here.now last.now }
{
    match last {
        None => false,
        Some(ply) => {
            let to = ply.mv.to.number();
            is_same(here[to as usize], start[to as usize])
        }
    }
}

/// For its clause: there are 64 squares.
fn count_squares(picture: &[u8; 64])
    ensures { length picture.now ≡ 64 }
{}

fn is_board(one: &[u8; 64], other: &[u8; 64]) -> bool
    ensures { result ≡ bytes_eq one.now other.now }
{
    *one == *other
}

/// Whether two pictures are the same, if they differ on these squares.
fn is_none(differs: u64, one: &[u8; 64], other: &[u8; 64]) -> bool
    ensures { IsDiff differs one.now other.now → result ≡ bytes_eq other.now one.now }
{
    count_squares(one);
    count_squares(other);
    differs == 0
}

fn is_count(one: u64, other: u64) -> bool
    ensures { result ≡ (one == other) }
{
    one == other
}

impl Course {
    /// A game that begins with this position.
    pub fn new(start: &Position) -> Course
        ensures { KeepsCourse result start.now [] }
    {
        let picture = start.picture();
        Course {
            count: 0,
            last: None,
            castled: false,
            is_at_start: is_board(&picture, &picture),
            start: picture,
            here: picture,
        }
    }

    /// The game after an event.
    fn after(&self, settler: &Settler) -> Course
        ensures { (start : Parts) (old : List PlyOf) → KeepsCourse self.now start old → settler.now.start ≡ start
            → KeepsCourse result start settler.now.score.plies }
    {
        let count = settler.moves().len() as u64;
        let last = last_of(settler);
        let here = settler.position().picture();
        let castled = castles(&here, &last);
        let is_at_start = is_board(&here, &self.start);
        Course {
            count,
            last,
            castled,
            is_at_start,
            start: self.start,
            here,
        }
    }

    /// The move or correction that leads to a later game.
    fn move_to(&self, next: &Course, is_added: bool) -> Move
        ensures { (start : Parts) (old new : List PlyOf) → KeepsCourse self.now start old → KeepsCourse next.now start new
            → result ≡ move_of start is_added old new }
    {
        let corrects = is_count(next.count, self.count);
        let uncastles = both(
            both(corrects, self.castled),
            brings_rook(&next.here, &next.last),
        );
        let is_home = brings_home(&next.start, &next.here, &next.last);
        Move {
            goes_home: either(is_home, uncastles),
            corrects,
            is_added,
        }
    }

    /// Goes on with an event, with which the plies become others or stay. The move or correction, if they do.
    pub fn go_on(&mut self, moves: bool, is_added: bool, settler: &Settler) -> Option<Move>
        ensures keeps { (start : Parts) (old : List PlyOf) → KeepsCourse self.old start old → settler.now.start ≡ start → AreMoved moves old settler.now.score.plies
            → KeepsCourse self.new start settler.now.score.plies }
        ensures tells { (start : Parts) (old : List PlyOf) → KeepsCourse self.old start old → settler.now.start ≡ start → AreMoved moves old settler.now.score.plies
            → TellsMove start is_added old settler.now.score.plies result }
    {
        if !moves {
            return None;
        }
        let next = self.after(settler);
        let played = self.move_to(&next, is_added);
        *self = next;
        Some(played)
    }

    /// Whether a picture shows the game's position, if it differs from it on these squares.
    pub fn agrees(&self, differs: u64, picture: &[u8; 64]) -> bool
        ensures { IsDiff differs self.now.here picture.now → result ≡ bytes_eq picture.now self.now.here }
    {
        is_none(differs, &self.here, picture)
    }

    /// Whether the game's position is that at its start.
    pub fn is_at_start(&self) -> bool
        ensures { (start : Parts) (plies : List PlyOf) → KeepsCourse self.now start plies → result ≡ bytes_eq (position start plies) (picture start) }
    {
        self.is_at_start
    }
}
