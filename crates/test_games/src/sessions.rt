//! What a session trusts, what a view tells, and that what is recorded reads back.
ghost use Rattle.board_events.specs.History.{IsInRange};

use crate::games::{expect_none, first_false};
use board_events::{Change, Session, Taken, View};
use board_session::laws::read_recorded;
use chess_rules::Position;
use dgt_frame::{Event, FaultKind, First, Message};
use dgt_vectors::texts::{GameText, NO_MOVE, ONE_MOVE};
use settle_core::Seen;
use std::alloc::Global;

/// The dump of the initial position.
fn dump() -> Event
    ensures { IsInRange result }
{
    Event::Message(Message::Dump(Position::initial().picture()))
}

/// e2 is empty now.
fn lift() -> Event
    ensures { IsInRange result }
{
    Event::Message(Message::Update { field: 52, code: 0 })
}

/// Of the event the session says this.
fn says(session: &mut Session, event: Event, asks_dump: bool, seen: Option<Seen>) -> bool
    requires { IsInRange event }
{
    session.take(event) == Ok(Taken { asks_dump, seen })
}

/// A new session sees nothing in an update.
fn trusts_nothing_yet(session: &mut Session) -> bool {
    !session.trusted() && session.reading().is_none() && says(session, lift(), false, None)
}

fn trusts_a_dump(session: &mut Session) -> bool {
    says(session, dump(), false, Some(Seen::Waits))
        && says(session, lift(), false, Some(Seen::Waits))
        && session.trusted()
}

fn trusts_nothing_after_a_fault(session: &mut Session) -> bool {
    says(session, Event::Fault(FaultKind::Stray), true, None)
        && says(session, lift(), false, None)
        && !session.trusted()
        && session.settler().moves().is_empty()
}

/// Of the event the view says this.
fn changes(view: &mut View, event: Event, change: Change) -> bool
    requires { IsInRange event }
{
    view.see(&event) == change
}

fn sees_a_lifted_pawn(view: &mut View, square: u8) -> bool {
    changes(view, lift(), Change::Nothing)
        && changes(view, dump(), Change::Picture)
        && changes(view, dump(), Change::Nothing)
        && changes(view, lift(), Change::Square { square, code: 0 })
        && changes(view, lift(), Change::Nothing)
}

fn sees_the_next_dump_after_a_fault(view: &mut View) -> bool {
    changes(view, Event::Fault(FaultKind::Stray), Change::Nothing)
        && changes(view, lift(), Change::Nothing)
        && changes(view, dump(), Change::Picture)
        && changes(view, dump(), Change::Nothing)
}

/// The text reads back as a game with so many moves.
fn reads_back(alloc: Global, text: &GameText<'_>, moves: usize) -> bool {
    match read_recorded(alloc, text.bytes().get()) {
        Ok(game) => game.plies().len() == moves,
        Err(_) => false,
    }
}

const TIMED: GameText<'static> = GameText {
    movetext: "1. e4 {[%clk 1:30:00]} 1... e5 {[%clk 1:29:59]} *",
    ..NO_MOVE
};

/// Texts, and how many moves their games have.
static RECORDED: [(GameText<'static>, usize); 2] = [(ONE_MOVE, 1), (TIMED, 2)];

/// The number of the first text that doesn't read back.
fn first_not_read_back(alloc: Global) -> Option<usize> {
    for (i, (text, moves)) in RECORDED.iter().enumerate() {
        if !reads_back(alloc, text, *moves) {
            return Some(i);
        }
    }
    None
}

/// A session trusts from a dump to a fault.
fn session_trusts(alloc: Global) -> bool {
    let mut session = Session::new(alloc, Position::initial(), First::White, false);
    trusts_nothing_yet(&mut session)
        && trusts_a_dump(&mut session)
        && trusts_nothing_after_a_fault(&mut session)
}

/// A view tells what changes, also of a turned board.
fn view_tells() -> bool {
    let mut view = View::new(false);
    let mut turned = View::new(true);
    sees_a_lifted_pawn(&mut view, 52)
        && sees_the_next_dump_after_a_fault(&mut view)
        && view.picture()[52] == 1
        && sees_a_lifted_pawn(&mut turned, 11)
        && turned.picture()[12] == 1
}

#[test]
fn sessions_and_views_tell(rt: HostRuntime) {
    let holds = [
        session_trusts(rt.alloc()),
        view_tells(),
        first_not_read_back(rt.alloc()).is_none(),
    ];
    expect_none(&rt, first_false(&holds));
}
