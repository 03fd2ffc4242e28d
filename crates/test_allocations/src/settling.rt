//! The calls on settlers and sessions. Before the refused one a sign was shown and taken back, so that it stands; the
//! ply clears it.
ghost use Rattle.std.specs.Prelude.{◌≡◌, ◌<◌, IfSome, true};
ghost use Rattle.settle_core.specs.Settler.{has_seen};

use crate::Outcome;
use board_session::{Session, Taken};
use chess_clock::{Hms, Reading};
use chess_rules::{Move, Position, Square};
use chess_text::read_fen;
use dgt_frame::{Event, First, Message};
use settle_core::{Ply, Seen, Settler};
use std::alloc::Global;

/// After 1. e4.
fn kings_pawn() -> Position {
    match read_fen(b"rnbqkbnr/pppppppp/8/8/4P3/8/PPPP1PPP/RNBQKBNR b KQkq e3 0 1") {
        Ok(position) => position,
        Err(_) => Position::initial(),
    }
}

/// 1:30:00 and 1:29:59.
fn reading() -> Reading {
    Reading {
        white: Hms {
            hours: 1,
            minutes: 30,
            seconds: 0,
        },
        black: Hms {
            hours: 1,
            minutes: 29,
            seconds: 59,
        },
    }
}

/// From e2 to e4.
fn is_kings_pawns(mv: Move) -> bool {
    mv.from.number() == 52 && mv.to.number() == 36 && mv.promotion.is_none()
}

/// 1. e4 at 1:30:00.
pub fn is_opening(plies: &[Ply]) -> bool {
    match plies.get(0) {
        Some(ply) => {
            plies.len() == 1 && is_kings_pawns(ply.mv) && ply.clock == Some(reading().white)
        }
        None => false,
    }
}

/// The sign stands, and no ply.
fn is_signed(settler: &Settler) -> bool {
    *settler.start() == Position::initial()
        && *settler.position() == Position::initial()
        && settler.moves().is_empty()
        && settler.sign() == Some(settle_core::Outcome::WhiteWins)
}

/// The ply stands, and no sign.
fn has_opened(settler: &Settler) -> bool {
    *settler.start() == Position::initial()
        && *settler.position() == kings_pawn()
        && is_opening(settler.moves())
        && settler.sign().is_none()
}

fn has_moved(seen: Seen) -> bool {
    match seen {
        Seen::Moved(mv) => is_kings_pawns(mv),
        _ => false,
    }
}

/// Shows this code on a square, which takes no memory.
fn show(settler: &mut Settler, square: u8, code: u8) -> bool
    requires seen { has_seen settler.old ≡ true }
    requires code { code < 16 }
    ensures seen { has_seen settler.new ≡ true }
{
    match Square::new(square) {
        Some(square) => settler.see_field(square, code, None).is_ok(),
        None => false,
    }
}

/// The kings go to e4 and d5, and back.
fn show_sign(settler: &mut Settler) -> bool
    requires { has_seen settler.old ≡ true }
    ensures { has_seen settler.new ≡ true }
{
    let away = show(settler, 60, 0) && show(settler, 4, 0);
    let signed = away && show(settler, 36, 5) && show(settler, 27, 11);
    let lifted = signed && show(settler, 36, 0) && show(settler, 27, 0);
    lifted && show(settler, 60, 5) && show(settler, 4, 11)
}

/// A settler before 1. e4, which takes no memory.
fn signed(alloc: Global) -> Option<Settler>
    ensures { IfSome result (λ settler. has_seen settler ≡ true) }
{
    let mut settler = Settler::new(alloc, Position::initial());
    if settler.see(&Position::initial().picture(), None).is_err() {
        return None;
    }
    if show_sign(&mut settler) && is_signed(&settler) {
        Some(settler)
    } else {
        None
    }
}

/// The picture after 1. e4: whether what is returned is due, unless memory ran out.
fn see_opening(settler: &mut Settler) -> Option<bool> {
    match settler.see(&kings_pawn().picture(), Some(reading())) {
        Ok(seen) => Some(has_moved(seen) && has_opened(settler)),
        Err(_) => None,
    }
}

/// A refused ply leaves the settler before the picture, so that it is seen again.
fn sees(settler: &mut Settler) -> Outcome {
    match see_opening(settler) {
        Some(holds) => Outcome::granted(holds),
        None => Outcome::refused(is_signed(settler) && see_opening(settler) == Some(true)),
    }
}

pub fn see(alloc: Global) -> Outcome {
    match signed(alloc) {
        Some(mut settler) => sees(&mut settler),
        None => Outcome::Broken,
    }
}

/// The pawn on e4: whether what is returned is due, unless memory ran out.
fn see_pawn(settler: &mut Settler) -> Option<bool>
    requires { has_seen settler.old ≡ true }
    ensures { has_seen settler.new ≡ true }
{
    let e4 = Square::new(36)?;
    match settler.see_field(e4, 1, Some(reading())) {
        Ok(seen) => Some(has_moved(seen) && has_opened(settler)),
        Err(_) => None,
    }
}

/// A refused ply leaves the settler before the field's update.
fn sees_field(settler: &mut Settler) -> Outcome
    requires { has_seen settler.old ≡ true }
{
    if !show(settler, 52, 0) {
        return Outcome::Broken;
    }
    match see_pawn(settler) {
        Some(holds) => Outcome::granted(holds),
        None => Outcome::refused(is_signed(settler) && see_pawn(settler) == Some(true)),
    }
}

pub fn see_field(alloc: Global) -> Outcome {
    match signed(alloc) {
        Some(mut settler) => sees_field(&mut settler),
        None => Outcome::Broken,
    }
}

/// Takes an update that gives no move, which takes no memory.
fn update(session: &mut Session, field: u8, code: u8) -> bool
    requires field { field < 64 }
    requires code { code < 16 }
{
    let event = Event::Message(Message::Update { field, code });
    session.take(event).is_ok()
}

/// The kings go to e4 and d5, and back; then e2 is lifted.
fn take_sign(session: &mut Session) -> bool {
    let away = update(session, 60, 0) && update(session, 4, 0);
    let signed = away && update(session, 36, 5) && update(session, 27, 11);
    let lifted = signed && update(session, 36, 0) && update(session, 27, 0);
    lifted && update(session, 60, 5) && update(session, 4, 11) && update(session, 52, 0)
}

/// The initial position, and the clocks' times; these events take no memory.
fn take_start(session: &mut Session) -> bool {
    let dump = Event::Message(Message::Dump(Position::initial().picture()));
    let times = Event::Message(Message::Time([0x01, 0x30, 0x00, 0x01, 0x29, 0x59, 0x00]));
    session.take(dump).is_ok() && session.take(times).is_ok()
}

fn stays(session: &Session) -> bool {
    session.trusted() && session.reading() == Some(reading())
}

fn is_due(taken: Taken) -> bool {
    let Taken { asks_dump, seen } = taken;
    match seen {
        Some(seen) => has_moved(seen) && !asks_dump,
        None => false,
    }
}

/// The pawn on e4: whether what is returned is due, unless memory ran out.
fn take_pawn(session: &mut Session) -> Option<bool> {
    let e4 = Event::Message(Message::Update { field: 36, code: 1 });
    match session.take(e4) {
        Ok(taken) => Some(is_due(taken) && stays(session) && has_opened(session.settler())),
        Err(_) => None,
    }
}

fn is_kept(session: &Session) -> bool {
    stays(session) && is_signed(session.settler())
}

/// A refused ply leaves the session before the event.
fn takes(session: &mut Session) -> Outcome {
    if !take_start(session) || !take_sign(session) {
        return Outcome::Broken;
    }
    match take_pawn(session) {
        Some(holds) => Outcome::granted(holds),
        None => Outcome::refused(is_kept(session) && take_pawn(session) == Some(true)),
    }
}

pub fn take(alloc: Global) -> Outcome {
    takes(&mut Session::new(alloc, Position::initial(), First::White, false))
}
