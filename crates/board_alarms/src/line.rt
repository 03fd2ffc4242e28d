//! Times in which the board wasn't heard.
ghost use Rattle.std.specs.Prelude.{◌≡◌, ◌∷◌, [], List};
ghost use Rattle.dgt_frame.specs.declared.events.Event.{Event as EventOf};
ghost use Rattle.board_alarms.specs.Gaps.{begun_by, cut_by, dumps_within, gap_before, gap_from, was_late};
ghost use Rattle.board_alarms.specs.Items.{Item, Noted, Sent};
ghost use Rattle.board_alarms.specs.Keeping.{KeepsLine};

use crate::chunk::Chunk;
use crate::news::News;
use board_doubts::Gap;

/// A board that sends nothing for so long isn't heard, in milliseconds.
const QUIET: u64 = 6000;

/// A dump has so many bytes.
const DUMP_SIZE: u64 = 67;

/// When the board was heard, and what has happened to its line since then.
#[derive(Clone, Copy)]
pub struct Line {
    heard_at: Option<u64>,
    /// It was gone, or a recorder has begun.
    is_cut: bool,
    /// A recorder has begun.
    has_begun: bool,
    /// So many bytes the capture has with the last event.
    bytes: u64,
}

/// How many dumps come at once from a line that was late for so long.
fn dumps_within(lasted: u64) -> u64
    ensures { result ≡ dumps_within lasted }
{
    (lasted / 1000).saturating_sub(1)
}

/// Whether the line was late: after such a time so many bytes come at once.
fn was_late(lasted: u64, brought: u64) -> bool
    ensures { result ≡ was_late lasted brought }
{
    dumps_within(lasted) <= brought / DUMP_SIZE
}

fn cut_after(news: News, before: bool) -> bool
    ensures { result ≡ cut_by news before }
{
    match news {
        News::Gone | News::Begins => true,
        _ => before,
    }
}

fn begun_after(news: News, before: bool) -> bool
    ensures { result ≡ begun_by news before }
{
    match news {
        News::Begins => true,
        _ => before,
    }
}

impl Line {
    /// Nothing was heard.
    pub fn new() -> Line
        ensures { KeepsLine result [] }
    {
        Line {
            heard_at: None,
            is_cut: false,
            has_begun: false,
            bytes: 0,
        }
    }

    /// The time until now in which the board wasn't heard, if so many bytes come now.
    fn gap(&self, brought: u64, now: u64) -> Option<Gap>
        ensures { result ≡ gap_from self.now.heard_at self.now.is_cut self.now.has_begun brought now }
    {
        let Some(at) = self.heard_at else {
            return None;
        };
        let lasted = now.saturating_sub(at);
        if self.is_cut || (QUIET <= lasted && !was_late(lasted, brought)) {
            Some(Gap {
                lasted,
                is_restart: self.has_begun,
            })
        } else {
            None
        }
    }

    /// The same before an event of these bytes.
    pub fn gap_before(&self, chunk: Chunk) -> Option<Gap>
        ensures { (items : List Item) → KeepsLine self.now items → result ≡ gap_before chunk items }
    {
        if chunk.is_sent() {
            let brought = chunk.end.saturating_sub(self.bytes);
            self.gap(brought, chunk.when.at)
        } else {
            None
        }
    }

    /// These bytes bring an event.
    pub fn hear(&mut self, chunk: Chunk)
        ensures { (items : List Item) (event : EventOf) → KeepsLine self.old items → KeepsLine self.new (Sent chunk event ∷ items) }
    {
        if chunk.is_sent() {
            self.heard_at = Some(chunk.when.at);
            self.is_cut = false;
            self.has_begun = false;
        }
        self.bytes = chunk.end;
    }

    /// News come.
    pub fn note(&mut self, at: u64, news: News)
        ensures { (items : List Item) → KeepsLine self.old items → KeepsLine self.new (Noted at news ∷ items) }
    {
        self.is_cut = cut_after(news, self.is_cut);
        self.has_begun = begun_after(news, self.has_begun);
    }
}
