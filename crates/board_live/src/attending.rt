//! The cable, and what it keeps for the game.
ghost use Rattle.std.specs.Prelude.{◌≡◌, ◌∷◌, [], List, IfOk, OnOk};
ghost use Rattle.board_cable.specs.Cable.{StandsFor};
ghost use Rattle.board_cable.specs.Keeping.{kept, kept_by, released};
ghost use Rattle.board_cable.specs.Moments.{Moment as CableMoment};
ghost use Rattle.board_cable.specs.Turns.{Told, Turn};
ghost use Rattle.board_live.specs.Attending.{Attends, Tells};
ghost use Rattle.board_live.specs.Moments.{Moment, cabled, moment_of};

use crate::happened::{Happened, cabled, number_news, sent, silence};
use board_cable::{Cable, Handling, Request};
use board_standing::Heard;
use std::alloc::{AllocError, Global};

/// What comes of the cable.
#[derive(Clone, Copy)]
pub struct Comes {
    pub handling: Handling,
    pub request: Option<Request>,
    /// The number of the game's board, if it is news.
    pub number: Option<[u8; 5]>,
    /// What the board's silence tells.
    pub silence: Option<Heard>,
}

/// Attends a board's cable.
#[derive(Drop)]
pub struct Attending {
    pub cable: Cable,
    /// What the game gets now.
    kept: Vec<u8>,
}

/// Replaces what is kept.
fn keep(
    kept: &mut Vec<u8>,
    cable: &Cable,
    handling: Handling,
    sent: &[u8],
) -> Result<(), AllocError>
    ensures { (past : List CableMoment) (turns : List Turn) → StandsFor cable.now past → Told past turns
        → OnOk result (kept.new.items ≡ kept_by handling (released turns) sent.now) }
{
    kept.clear();
    match handling {
        Handling::Keep => {
            kept.extend_from_slice(cable.released())?;
            kept.extend_from_slice(sent)
        }
        Handling::Hold | Handling::Other(_) => Ok(()),
    }
}

impl Attending {
    /// Nothing has happened. Takes no memory.
    pub fn new(alloc: Global) -> Attending
        ensures { Attends result [] }
    {
        let cable = Cable::new(alloc);
        let kept = Vec::new(alloc);
        Attending { cable, kept }
    }

    /// What the game gets now of what the board has sent.
    pub fn kept(&self) -> &[u8]
        ensures { result.now ≡ self.now.kept.items }
    {
        self.kept.as_slice()
    }

    /// Takes what happens.
    pub fn take(&mut self, happened: Happened, bytes: &[u8]) -> Result<Comes, AllocError>
        ensures attends { (past : List Moment) → Attends self.old past → OnOk result (Attends self.new (moment_of happened bytes.now ∷ past)) }
        ensures tells { (past : List Moment) (turn : Turn) (turns : List Turn) → Attends self.old past
            → Told (cabled (moment_of happened bytes.now ∷ past)) (turn ∷ turns) → IfOk result (Tells happened.what turn turns) }
    {
        let before = self.cable.is_silent();
        let own = self.cable.serial();
        let happening = cabled(happened);
        let answer = self.cable.take(happening, bytes)?;
        let from_board = sent(happened, bytes);
        keep(&mut self.kept, &self.cable, answer.handling, from_board)?;
        let after = self.cable.is_silent();
        let silence = silence(happened.what, before, after);
        let serial = self.cable.serial();
        let number = number_news(happened.what, &own, &serial);
        Ok(Comes {
            handling: answer.handling,
            request: answer.request,
            number,
            silence,
        })
    }
}
