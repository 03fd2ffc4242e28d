//! The new capture of a game that goes back: made, read again, and compared.
ghost use Rattle.std.specs.Prelude.{◌≡◌, ◌⊎◌, ◌↔◌, ◌<◌, ◌≤◌, ◌+◌, ◌++◌, All, List, None, Some, false, true, IfErr, IfOk, IsTrue, MatchOption, OnOk, length, slice_index_or, take};
ghost use Rattle.dgt_frame.specs.declared.events.Event.{Event as EventOf};
ghost use Rattle.board_events.specs.Limits.{limit};
ghost use Rattle.board_events.specs.Settings.{Setting};
ghost use Rattle.board_events.specs.Session.{entries_in};
ghost use Rattle.settle_core.specs.Entries.{last_picture};
ghost use Rattle.settle_core.specs.Folding.{moves_of};
ghost use Rattle.settle_core.specs.Settler.{plies_of};
ghost use Rattle.settle_core.specs.Settling.{Line, position_after};
ghost use Rattle.settle_core.specs.declared.plies.Ply.{Ply as PlyOf};
ghost use Rattle.unseen_pairs.specs.Pairs.{IsExplained};
ghost use Rattle.board_captures.specs.Reading.{StandAlike, StandsForCapture, setting_of};
ghost use Rattle.board_captures.specs.Shown.{size_of_board, size_of_game};
ghost use Rattle.going_back.specs.Back.{Differs, Gives, GoesBack, HadMove, HasPlies, IsMade, Refuses, RefusesThese, Replaces, Spoils};

use board_captures::{CaptureError, Captured, Method, read_capture, show_game};
use chess_clock::Reading;
use chess_game::result_at;
use chess_rules::{Move, Position};
use dgt_frame::LIMIT;
use settle_core::{Outcome, Ply, Settler};
use std::alloc::{AllocError, Global};
use unseen_pairs::is_explained;

/// Why a game can't go back so far.
#[derive(Clone, Copy, Debug, PartialEq, Eq)]
pub enum BackError {
    /// The board has shown nothing.
    Unseen,
    /// With the last ply that stays the game ends on the board, by checkmate or stalemate, so.
    Ended(Outcome),
    /// The board still shows the sign of this result.
    Signed(Outcome),
    /// The board still shows this move, which the game had behind the plies that stay.
    Moved(Move),
    /// With what the board shows, there would be other plies; or it wouldn't stand as it stood; or, where pairs are
    /// recovered, two plies would come back at the next move.
    Board,
    /// The new capture has more than 67,108,864 bytes, or it has with what is put in.
    TooLong,
    /// Memory ran out.
    Memory,
}

/// Whether this is the same ply, with the same clock.
fn is_same(ply: &Ply, other: &Ply) -> bool
    ensures { IsTrue result ↔ (ply.now ≡ other.now) }
{
    *ply == *other
}

/// The ply at this place, which is 0 for the first.
pub fn ply_at(plies: &[Ply], at: usize) -> &Ply
    requires { at < length plies.now }
    ensures { result.now ≡ slice_index_or plies.now at result.now }
{
    &plies[at]
}

/// The position after these plies.
pub fn position_behind(start: &Position, plies: &[Ply]) -> Position
    requires { Line start.now (moves_of plies.now) }
    ensures { result ≡ position_after start.now (moves_of plies.now) }
{
    let mut position = *start;
    for ply in plies {
        position = position.play(ply.mv);
    }
    position
}

/// Whether the plies begin with these.
fn begin_with(plies: &[Ply], front: &[Ply]) -> bool
    ensures { IsTrue result ↔ ((more : List PlyOf) × (plies.now ≡ front.now ++ more)) }
{
    if plies.len() < front.len() {
        return false;
    }
    let mut at = 0;
    for ply in front {
        if !is_same(ply_at(plies, at), ply) {
            return false;
        }
        at += 1;
    }
    true
}

pub fn is_same_move(one: &Move, other: &Move) -> bool
    ensures { IsTrue result ↔ (one.now ≡ other.now) }
{
    *one == *other
}

/// Whether the game had this move at this place, which is 0 for the first.
fn had_move(old: &[Ply], place: usize, mv: &Move) -> bool
    ensures { IsTrue result ↔ HadMove old.now place mv.now }
{
    if place >= old.len() {
        return false;
    }
    is_same_move(&ply_at(old, place).mv, mv)
}

/// Judges the plies of a new game: they are to be these, or these and one more that the old game hadn't there. Returns
/// whether it has one more.
fn judge_plies(made: &Settler, old: &[Ply], plies: &[Ply]) -> Result<bool, BackError>
    ensures ok { IfOk result (HasPlies made.now old.now plies.now) }
    ensures refused { IfErr result (Differs made.now old.now plies.now) }
{
    let moves = made.moves();
    if !begin_with(moves, plies) {
        return Err(BackError::Board);
    }
    if moves.len() == plies.len() {
        return Ok(false);
    }
    let next = ply_at(moves, plies.len()).mv;
    if had_move(old, plies.len(), &next) {
        return Err(BackError::Moved(next));
    }
    if moves.len() > plies.len() + 1 {
        return Err(BackError::Board);
    }
    Ok(true)
}

/// Judges a new game, which is to have these plies, or one more, and no sign of a result. Returns whether it has one more.
fn judge(made: &Settler, old: &[Ply], plies: &[Ply]) -> Result<bool, BackError>
    ensures ok { IfOk result (λ more. HasPlies made.now old.now plies.now more × (made.now.score.sign ≡ None)) }
    ensures refused { IfErr result (Differs made.now old.now plies.now) }
{
    let more = match judge_plies(made, old, plies) {
        Ok(more) => more,
        Err(error) => return Err(error),
    };
    match made.sign() {
        Some(outcome) => Err(BackError::Signed(outcome)),
        None => Ok(more),
    }
}

/// Whether this is the picture.
pub fn is_picture(seen: Option<&[u8; 64]>, picture: &[u8; 64]) -> bool
    ensures { MatchOption seen.entry (result ≡ false) (λ other. IsTrue result ↔ (other.now ≡ picture.now)) }
{
    let Some(other) = seen else {
        return false;
    };
    *other == *picture
}

/// Whether the clocks show the same.
fn is_reading(one: Option<Reading>, other: Option<Reading>) -> bool
    ensures { IsTrue result ↔ (one ≡ other) }
{
    one == other
}

/// Whether the board stands alike after both, where it has shown this picture last in the first.
fn stand_alike(captured: &Captured, picture: &[u8; 64], made: &Captured) -> bool
    ensures { (setting : Setting) (past others : List EventOf) → StandsForCapture captured.now setting past
        → StandsForCapture made.now setting others → last_picture (entries_in setting past) ≡ Some picture.now
        → (IsTrue result ↔ StandAlike setting others past) }
{
    if made.session.trusted() != captured.session.trusted() {
        return false;
    }
    if !is_reading(made.session.reading(), captured.session.reading()) {
        return false;
    }
    is_picture(made.picture(), picture)
}

/// Whether pairs are recovered, and this picture would be taken for one behind the plies of a capture.
fn shows_pair(
    alloc: Global,
    method: &Method,
    made: &Captured,
    picture: &[u8; 64],
) -> Result<bool, AllocError>
    ensures { IfOk result (λ pair. IsTrue pair ↔ ((method.now.recovers ≡ true)
        × IsExplained made.now.session.settler.start (moves_of made.now.session.settler.score.plies) picture.now)) }
{
    if !method.recovers {
        return Ok(false);
    }
    let pair = is_explained(alloc, made.session.settler(), picture)?;
    Ok(pair)
}

/// Reads a new capture again, and compares it with what it is to give: these plies, or one more that the old game hadn't
/// there, without the sign of a result, and the board as it stood, with this picture. Returns whether it has one more.
fn compare(
    alloc: Global,
    method: &Method,
    captured: &Captured,
    picture: &[u8; 64],
    old: &[Ply],
    plies: &[Ply],
    bytes: &[u8],
) -> Result<bool, BackError>
    ensures gives { (past : List EventOf) → StandsForCapture captured.now (setting_of method.now) past
        → last_picture (entries_in (setting_of method.now) past) ≡ Some picture.now
        → IfOk result (λ more. Gives (setting_of method.now) method.now.recovers past old.now plies.now more bytes.now) }
    ensures spoils { (past : List EventOf) → StandsForCapture captured.now (setting_of method.now) past
        → last_picture (entries_in (setting_of method.now) past) ≡ Some picture.now
        → IfErr result (λ error. (error ≡ BackError.Memory) ⊎ Spoils (setting_of method.now) method.now.recovers past old.now plies.now bytes.now error) }
{
    let made = match read_capture(alloc, method, bytes) {
        Ok(made) => made,
        Err(CaptureError::TooLong) => return Err(BackError::TooLong),
        Err(CaptureError::Memory) => return Err(BackError::Memory),
    };
    let more = match judge(made.session.settler(), old, plies) {
        Ok(more) => more,
        Err(error) => return Err(error),
    };
    if !stand_alike(captured, picture, &made) {
        return Err(BackError::Board);
    }
    match shows_pair(alloc, method, &made, picture) {
        Ok(false) => Ok(more),
        Ok(true) => Err(BackError::Board),
        Err(_) => Err(BackError::Memory),
    }
}

/// The bytes that show these plies, and then the board as it stands, with this picture.
fn show_plies(
    alloc: Global,
    method: &Method,
    captured: &Captured,
    picture: &[u8; 64],
    plies: &[Ply],
) -> Result<Vec<u8>, AllocError>
    requires codes { All (λ code. code < 16) picture.now }
    requires line { Line captured.now.session.settler.start (moves_of plies.now) }
    ensures { (past : List EventOf) → StandsForCapture captured.now (setting_of method.now) past
        → last_picture (entries_in (setting_of method.now) past) ≡ Some picture.now
        → IfOk result (λ bytes. IsMade (setting_of method.now) past plies.now bytes.items) }
{
    show_game(
        alloc,
        method.first,
        method.rotated,
        captured.session.settler().start(),
        plies,
        &captured.session.reading(),
        picture,
        captured.session.trusted(),
    )
}

/// How many bytes a capture takes for a game with so many plies, of which there are at most 67,108,864.
fn size_of(plies: usize) -> usize
    requires { plies ≤ 67108864 }
    ensures value { result ≡ size_of_game plies }
    ensures within { result ≤ 8000000000 }
{
    if plies == 0 { 0 } else { 67 + 77 * plies }
}

/// Whether a capture that shows so many plies, and then the board, has more bytes than a stream may have.
fn is_too_large(plies: usize, trusted: bool) -> bool
    ensures { IsTrue result ↔ (limit < size_of_game plies + size_of_board trusted) }
{
    if plies > LIMIT as usize {
        return true;
    }
    let board = if trusted { 77 } else { 78 };
    size_of(plies) + board > LIMIT as usize
}

/// A new capture.
#[derive(Drop)]
pub struct Replacement {
    pub bytes: Vec<u8>,
    /// Whether its game has one ply more, which the board shows.
    pub has_more: bool,
}

/// The capture that shows these plies in place of those of the game, with their clocks, and then the board as it stands.
/// It is read again as `method` says: its game has these plies, or one more that the board shows and that the game hadn't
/// there, and no sign of a result, and the board stands as it stood. `captured` is what was read of all that the board sent.
///
/// # Errors
///
/// - `Unseen`: the board has shown nothing.
/// - `Signed`: the board still shows the sign of this result.
/// - `Moved`: the board still shows this move, which the game had there.
/// - `Board`: with what the board shows, there would be other plies, or it would not stand as it stood; or, where pairs are
///   recovered, it shows two plies that would come back at the next move.
/// - `TooLong`: the capture has more than 67,108,864 bytes, or it has with what is put in.
/// - `Memory`: memory ran out.
pub fn replace_plies(
    alloc: Global,
    method: &Method,
    captured: &Captured,
    plies: &[Ply],
) -> Result<Replacement, BackError>
    requires line { Line captured.now.session.settler.start (moves_of plies.now) }
    ensures made { (past : List EventOf) → StandsForCapture captured.now (setting_of method.now) past
        → IfOk result (λ made. Replaces (setting_of method.now) method.now.recovers past (plies_of captured.now.session.settler) plies.now made.has_more made.bytes.items) }
    ensures refused { (past : List EventOf) → StandsForCapture captured.now (setting_of method.now) past
        → IfErr result (RefusesThese (setting_of method.now) method.now.recovers past (plies_of captured.now.session.settler) plies.now) }
{
    let Some(picture) = captured.picture() else {
        return Err(BackError::Unseen);
    };
    if is_too_large(plies.len(), captured.session.trusted()) {
        return Err(BackError::TooLong);
    }
    let Ok(bytes) = show_plies(alloc, method, captured, picture, plies) else {
        return Err(BackError::Memory);
    };
    let old = captured.session.settler().moves();
    match compare(alloc, method, captured, picture, old, plies, &bytes) {
        Ok(has_more) => Ok(Replacement { bytes, has_more }),
        Err(error) => Err(error),
    }
}

/// The capture that shows the first plies of a game, so many, with their clocks, and then the board as it stands, as
/// `replace_plies` makes it.
///
/// # Errors
///
/// Those of `replace_plies`, and `Ended`: the position with which the game would end is checkmate or stalemate: that is its
/// result.
pub fn go_back(
    alloc: Global,
    method: &Method,
    captured: &Captured,
    stays: usize,
) -> Result<Vec<u8>, BackError>
    requires { stays ≤ length (plies_of captured.now.session.settler) }
    ensures back { (past : List EventOf) → StandsForCapture captured.now (setting_of method.now) past
        → IfOk result (λ made. GoesBack (setting_of method.now) method.now.recovers past (plies_of captured.now.session.settler) (take stays (plies_of captured.now.session.settler)) made.items) }
    ensures refused { (past : List EventOf) → StandsForCapture captured.now (setting_of method.now) past
        → IfErr result (Refuses (setting_of method.now) method.now.recovers past (plies_of captured.now.session.settler) (take stays (plies_of captured.now.session.settler))) }
{
    let settler = captured.session.settler();
    let stay = &settler.moves()[..stays];
    if let Some(outcome) = result_at(&position_behind(settler.start(), stay), None) {
        return Err(BackError::Ended(outcome));
    }
    match replace_plies(alloc, method, captured, stay) {
        Ok(made) => Ok(made.bytes),
        Err(error) => Err(error),
    }
}
