//! A recorder that a host tells entries.
ghost use Rattle.std.specs.Prelude.{◌≡◌, ◌∷◌, [], ◌++◌, ℕ, Bool, List, OnOk, drop, false, true};
ghost use Rattle.board_events.specs.declared.setup.Setup.{Setup as SetupOf};
ghost use Rattle.board_events.specs.Settings.{setting_of};
ghost use Rattle.board_game.specs.Report.{first_line};
ghost use Rattle.live_lines.specs.declared.entries.Entry.{Entry as EntryOf};
ghost use Rattle.live_lines.specs.Entries.{brings_capture};
ghost use Rattle.live_lines.specs.Heard.{Heard, IsHeard, waiting_by};
ghost use Rattle.live_lines.specs.Recorder.{HasBegun, IsAnswered, Reports, StandsFor};

use crate::answers::{add_answer, end_report};
use crate::clock::Clock;
use crate::entries::{Entry, What};
use crate::explaining::explain_if;
use crate::history::{events_for, tell_history};
use crate::meaning::meaning_of;
use crate::text::text_if;
use board_alarms::Look;
use board_captures::Method;
use board_events::Setup;
use board_live::{Happened, Live};
use board_times::read_times;
use chess_game::Tags;
use std::alloc::{AllocError, Global};

/// Takes what a host tells, and answers.
#[derive(Drop)]
pub struct Recorder {
    alloc: Global,
    clock: Clock,
    live: Live,
    /// New lines of the report.
    lines: Vec<u8>,
    /// The file of times that waits for its capture.
    times: Vec<u8>,
    /// The tags of the game's text.
    tags: Tags,
}

/// The open alarms behind so many that aren't said.
fn said(alarms: &[Look], unsaid: usize) -> &[Look]
    ensures { result.now ≡ drop unsaid alarms.now }
{
    if alarms.len() <= unsaid {
        &[]
    } else {
        &alarms[unsaid..]
    }
}

/// Remembers a file of times, if this is one.
fn remember(times: &mut Vec<u8>, what: What, bytes: &[u8]) -> Result<(), AllocError>
    requires { brings_capture what ≡ false }
    ensures { OnOk result (times.new.items ≡ waiting_by what bytes.now times.old.items) }
{
    if !what.brings_times() {
        return Ok(());
    }
    times.clear();
    times.extend_from_slice(bytes)
}

impl Recorder {
    /// Nothing was told. Takes no memory.
    pub fn new(alloc: Global, setup: Setup, recovers: bool) -> Recorder
        ensures stands { StandsFor result setup recovers [] (first_line (setting_of setup)) }
        ensures begun { HasBegun result }
    {
        let Setup {
            start,
            first,
            rotated,
            tags,
        } = setup;
        let method = Method {
            start,
            first,
            rotated,
            recovers,
        };
        let clock = Clock::new();
        let live = Live::new(alloc, &method);
        let lines = Vec::new(alloc);
        let times = Vec::new(alloc);
        Recorder {
            alloc,
            clock,
            live,
            lines,
            times,
            tags,
        }
    }

    /// Takes an entry with the bytes behind it, and appends what is answered: what explains the board where it is said to be wrong, and
    /// the text of the game if the entry wants it. A file of times waits for its capture, which comes
    /// behind it. Then both are told to the board: what was kept of the calls before.
    ///
    /// # Errors
    ///
    /// Where there is no memory. Then nothing more may be taken.
    pub fn take(&mut self, entry: Entry, bytes: &[u8], out: &mut Vec<u8>) -> Result<(), AllocError>
        requires begun { HasBegun self.old }
        ensures stands { (setup : SetupOf) (recovers : Bool) (past : List Heard) (text : List ℕ) → StandsFor self.old setup recovers past text
            → OnOk result ((heard : Heard) × (more said : List ℕ) × (heard.entry ≡ entry) × (heard.bytes ≡ bytes.now) × IsHeard heard past
            × (out.new.items ≡ out.old.items ++ said) × IsAnswered setup recovers heard past more said
            × StandsFor self.new setup recovers (heard ∷ past) (text ++ more)) }
        ensures begun { OnOk result (HasBegun self.new) }
    {
        if entry.what.brings_capture() {
            self.take_capture(bytes, out)
        } else {
            self.take_entry(entry, bytes, out)
        }
    }

    /// Takes a capture of the calls before, by the file of times that waited for it.
    fn take_capture(&mut self, capture: &[u8], out: &mut Vec<u8>) -> Result<(), AllocError>
        requires begun { HasBegun self.old }
        ensures stands { (setup : SetupOf) (recovers : Bool) (entry : EntryOf) (past : List Heard) (text : List ℕ)
            → brings_capture entry.what ≡ true → StandsFor self.old setup recovers past text
            → OnOk result ((heard : Heard) × (more said : List ℕ) × (heard.entry ≡ entry) × (heard.bytes ≡ capture.now) × IsHeard heard past
            × (out.new.items ≡ out.old.items ++ said) × IsAnswered setup recovers heard past more said
            × StandsFor self.new setup recovers (heard ∷ past) (text ++ more)) }
        ensures begun { OnOk result (HasBegun self.new) }
    {
        let found = read_times(self.alloc, self.times.as_slice())?;
        let events = events_for(&found, capture);
        tell_history(&mut self.live, &mut self.clock, events, capture, out)?;
        self.times = Vec::new(self.alloc);
        end_report(self.alloc, out)?;
        Ok(())
    }

    /// Takes another entry.
    fn take_entry(
        &mut self,
        entry: Entry,
        bytes: &[u8],
        out: &mut Vec<u8>,
    ) -> Result<(), AllocError>
        requires begun { HasBegun self.old }
        requires brings { brings_capture entry.what ≡ false }
        ensures stands { (setup : SetupOf) (recovers : Bool) (past : List Heard) (text : List ℕ) → StandsFor self.old setup recovers past text
            → OnOk result ((heard : Heard) × (more said : List ℕ) × (heard.entry ≡ entry) × (heard.bytes ≡ bytes.now) × IsHeard heard past
            × (out.new.items ≡ out.old.items ++ said) × IsAnswered setup recovers heard past more said
            × StandsFor self.new setup recovers (heard ∷ past) (text ++ more)) }
        ensures begun { OnOk result (HasBegun self.new) }
    {
        remember(&mut self.times, entry.what, bytes)?;
        let at = self.clock.take(entry);
        let what = meaning_of(entry.what, bytes);
        self.lines.clear();
        let answer = self
            .live
            .take(Happened { at, what }, bytes, &mut self.lines)?;
        let due = self.live.due(at);
        let kept = self.live.kept();
        let is_wanted = entry.what.wants_text();
        let board = self.live.game();
        let fits = explain_if(self.alloc, answer.state, board)?;
        let game = text_if(self.alloc, is_wanted, board, &self.tags)?;
        let looks = said(self.live.alarms(), answer.unsaid);
        add_answer(
            self.alloc,
            at,
            &answer,
            kept,
            self.lines.as_slice(),
            fits.as_slice(),
            game.as_slice(),
            looks,
            due,
            out,
        )?;
        Ok(())
    }

    /// Appends the first line of the report: the position at the start.
    ///
    /// # Errors
    ///
    /// Where there is no memory for it.
    pub fn first_line(&self, out: &mut Vec<u8>) -> Result<(), AllocError>
        ensures { (setup : SetupOf) (recovers : Bool) (past : List Heard) (text : List ℕ) → StandsFor self.now setup recovers past text
            → OnOk result (out.new.items ≡ out.old.items ++ first_line (setting_of setup)) }
    {
        let game = self.live.game();
        game.first_line(out)
    }

    /// The board.
    pub fn live(&self) -> &Live
        ensures { result.now ≡ self.now.live }
    {
        &self.live
    }

    /// For its clause: what was appended so far is the report of what came to the game, behind its first line.
    pub fn conclude(&self)
        ensures { (setup : SetupOf) (recovers : Bool) (past : List Heard) (text : List ℕ) → StandsFor self.now setup recovers past text
            → Reports setup recovers past text }
    {
        self.live.conclude();
    }
}
