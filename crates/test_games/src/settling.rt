//! Recordings and sessions against a slow settler, which tries every origin, target and promotion for each picture.
ghost use Rattle.board_events.specs.History.{IsInRange};
ghost use Rattle.std.specs.Prelude.{IfSome};

use crate::slow::last_event;
use board_events::{Session, Taken};
use chess_clock::{Hms, Reading};
use chess_rules::{Move, Position, Side, Status};
use chess_text::FenError;
use dgt_frame::{Event, First, Message, read_time};
use dgt_vectors::recording::{recorded, start_of};
use dgt_vectors::row::Row;
use dgt_vectors::trying::{after, only_move, sign};
use pgn_book::read_pgn;
use settle_core::{Outcome, Ply, Seen};
use std::alloc::{AllocError, Global};

/// What the messages tell of the board.
#[derive(Drop)]
struct Board {
    picture: [u8; 64],
    /// A dump has come since the start and since the last fault.
    trusted: bool,
    rotated: bool,
    first: First,
    reading: Option<Reading>,
}

impl Board {
    /// What the clocks show.
    fn times(&self) -> Option<Times> {
        let reading = self.reading?;
        Some(Times {
            white: seconds_of(reading.white),
            black: seconds_of(reading.black),
        })
    }

    /// The picture that an event shows, if it shows one.
    fn take(&mut self, event: Event) -> Option<[u8; 64]> {
        match event {
            Event::Message(Message::Dump(codes)) => {
                self.picture = codes;
                if self.rotated {
                    self.picture.reverse();
                }
                self.trusted = true;
                Some(self.picture)
            }
            Event::Message(Message::Update { field, code }) if self.trusted => {
                let square = if self.rotated {
                    63u8.saturating_sub(field)
                } else {
                    field
                };
                *self.picture.get_mut(square as usize)? = code;
                Some(self.picture)
            }
            Event::Message(Message::Time(times)) => {
                self.reading = read_time(&times, self.first, self.reading);
                None
            }
            Event::Message(_) => None,
            Event::Fault(_) => {
                self.trusted = false;
                None
            }
        }
    }
}

/// The seconds that White and Black have.
#[derive(Clone, Copy)]
struct Times {
    white: u32,
    black: u32,
}

fn seconds_of(time: Hms) -> u32 {
    time.hours as u32 * 3600 + time.minutes as u32 * 60 + time.seconds as u32
}

/// A move, the mover's seconds with its picture, and the position after it.
#[derive(Clone, Copy)]
struct Step {
    mv: Move,
    clock: Option<u32>,
    after: Position,
}

/// The seconds of the side to move.
fn time_of(position: &Position, times: &Option<Times>) -> Option<u32> {
    let times = (*times)?;
    Some(match position.parts().side {
        Side::White => times.white,
        Side::Black => times.black,
    })
}

/// The only legal move that gives the picture.
fn only_step(position: &Position, picture: &[u8; 64], times: &Option<Times>) -> Option<Step> {
    let mv = only_move(position, picture)?;
    Some(Step {
        mv,
        clock: time_of(position, times),
        after: after(position, &mv),
    })
}

/// The cases of what is returned.
#[derive(Clone, Copy)]
enum Case {
    Same,
    Moved,
    Sign,
    Replaced,
    Waits,
}

/// The game that pictures tell.
#[derive(Drop)]
struct Told {
    start: Position,
    steps: Vec<Step>,
    sign: Option<Outcome>,
    last: Option<[u8; 64]>,
}

impl Told {
    fn new(alloc: Global, start: Position) -> Told {
        Told {
            start,
            steps: Vec::new(alloc),
            sign: None,
            last: None,
        }
    }

    /// The position after so many moves.
    fn position_after(&self, moves: usize) -> Position {
        match self.steps.get(moves.wrapping_sub(1)) {
            Some(step) => step.after,
            None => self.start,
        }
    }

    fn position(&self) -> Position {
        self.position_after(self.steps.len())
    }

    /// The step in the place of the last one.
    fn other_step(&self, picture: &[u8; 64], times: &Option<Times>) -> Option<Step> {
        let last = self.steps.last()?;
        let before = self.position_after(self.steps.len().saturating_sub(1));
        let step = only_step(&before, picture, times)?;
        if step.mv == last.mv { None } else { Some(step) }
    }

    fn see(&mut self, picture: &[u8; 64], times: &Option<Times>) -> Result<Case, AllocError> {
        if self.last == Some(*picture) {
            return Ok(Case::Same);
        }
        self.last = Some(*picture);
        let position = self.position();
        let mut case = Case::Waits;
        if let Some(step) = only_step(&position, picture, times) {
            self.steps.push(step)?;
            self.sign = None;
            case = Case::Moved;
        } else if let Some(outcome) = sign(&position, picture) {
            self.sign = Some(outcome);
            case = Case::Sign;
        } else if let Some(step) = self.other_step(picture, times) {
            let _last = self.steps.pop();
            self.steps.push(step)?;
            self.sign = None;
            case = Case::Replaced;
        }
        Ok(case)
    }

    /// What is returned for the picture that was seen last, of this case.
    fn answer(&self, case: Case) -> Option<Seen> {
        match case {
            Case::Same => Some(Seen::Same),
            Case::Moved => Some(Seen::Moved(self.steps.last()?.mv)),
            Case::Sign => Some(Seen::Sign(self.sign?)),
            Case::Replaced => Some(Seen::Replaced(self.steps.last()?.mv)),
            Case::Waits => Some(Seen::Waits),
        }
    }

    /// Checkmate and stalemate say the result, or else the sign.
    fn result(&self) -> Option<Outcome> {
        let position = self.position();
        match (position.status(), position.parts().side) {
            (Status::Checkmate, Side::White) => Some(Outcome::BlackWins),
            (Status::Checkmate, Side::Black) => Some(Outcome::WhiteWins),
            (Status::Stalemate, _) => Some(Outcome::Drawn),
            _ => self.sign,
        }
    }

    /// Whether plies have these moves and times.
    fn has(&self, plies: &[Ply]) -> bool {
        plies.len() == self.steps.len()
            && plies.iter().zip(&self.steps).all(|(ply, step)| ply.mv == step.mv
                && clock_of(ply) == step.clock)
    }
}

fn clock_of(ply: &Ply) -> Option<u32> {
    Some(seconds_of(ply.clock?))
}

/// The event, where its codes and field are those that there are.
fn in_range(event: Event) -> Option<Event>
    ensures { IfSome result (λ event. IsInRange event) }
{
    match event {
        Event::Message(Message::Dump(codes)) => {
            if codes.iter().all(|code| *code < 16) {
                Some(Event::Message(Message::Dump(codes)))
            } else {
                None
            }
        }
        Event::Message(Message::Update { field, code }) => {
            if field < 64 && code < 16 {
                Some(Event::Message(Message::Update { field, code }))
            } else {
                None
            }
        }
        Event::Message(Message::Time(times)) => Some(Event::Message(Message::Time(times))),
        Event::Message(Message::Other { id, size }) => Some(Event::Message(Message::Other {
            id,
            size,
        })),
        Event::Fault(kind) => Some(Event::Fault(kind)),
    }
}

/// A session, and what the messages that it takes tell.
#[derive(Drop)]
struct Beside {
    session: Session,
    board: Board,
    told: Told,
}

impl Beside {
    fn new(alloc: Global, row: &Row<'_>) -> Result<Beside, FenError> {
        let start = start_of(row)?;
        Ok(Beside {
            session: Session::new(alloc, start, row.first, row.rotated),
            board: Board {
                picture: [0; 64],
                trusted: false,
                rotated: row.rotated,
                first: row.first,
                reading: None,
            },
            told: Told::new(alloc, start),
        })
    }

    /// Whether the session says of the event what is told, and then has the moves, times and sign that are told.
    fn take(&mut self, event: Event) -> Result<bool, AllocError>
        requires { IsInRange event }
    {
        let taken = self.session.take(event)?;
        let asks_dump = matches!(event, Event::Fault(_));
        let mut seen = None;
        if let Some(picture) = self.board.take(event) {
            let times = self.board.times();
            let case = self.told.see(&picture, &times)?;
            seen = self.told.answer(case);
        }
        let settler = self.session.settler();
        Ok(
            taken == Taken { asks_dump, seen }
                && self.told.has(settler.moves())
                && settler.sign() == self.told.sign,
        )
    }
}

/// The game of this text is the one that is told.
fn tells(alloc: Global, text: &[u8], told: &Told) -> bool {
    match read_pgn(alloc, text) {
        Ok(game) => *game.start() == told.start
            && told.has(game.plies())
            && game.result() == told.result(),
        Err(_) => false,
    }
}

/// The game that is recorded of these bytes is the one that is told.
fn is_recorded(alloc: Global, row: &Row<'_>, bytes: &[u8], told: &Told) -> bool {
    match recorded(alloc, row, bytes, 4096) {
        Ok(got) => tells(alloc, got.text_shown.get(), told),
        Err(_) => false,
    }
}

/// Where an event comes at the last of these bytes, the session and the recorded game are then as the pictures tell.
fn agrees(alloc: Global, row: &Row<'_>, beside: &mut Beside, front: &[u8]) -> bool {
    let (Some(event), _) = last_event(front) else {
        return true;
    };
    let Some(event) = in_range(event) else {
        return false;
    };
    match beside.take(event) {
        Ok(true) => is_recorded(alloc, row, front, &beside.told),
        _ => false,
    }
}

/// How many bytes of the capture have come where something else stands than is told.
fn first_untold(alloc: Global, row: &Row<'_>, beside: &mut Beside) -> Option<usize> {
    let bytes = row.bytes();
    for len in 1..bytes.len().saturating_add(1) {
        if !agrees(alloc, row, beside, bytes.front(len)) {
            return Some(len);
        }
    }
    None
}

/// After each event of a capture the session and the recorded game are as its pictures tell; else how many bytes have
/// come, 0 where the start isn't read.
pub fn settling_failing(alloc: Global, row: &Row<'_>) -> Option<usize> {
    match Beside::new(alloc, row) {
        Ok(mut beside) => first_untold(alloc, row, &mut beside),
        Err(_) => Some(0),
    }
}
