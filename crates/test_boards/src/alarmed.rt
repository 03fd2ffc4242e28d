//! Which alarms are open, worked by hand: what a board sends when, what is added by hand, what its clock says, and what
//! happens beside it.

ghost use Rattle.std.specs.Prelude.{IfSome};
ghost use Rattle.board_events.specs.History.{IsInRange};

use crate::coded_frames::expect_none;
use crate::doubted::codes_of;
use board_alarms::{Alarms, Chunk, Look, News, Sight, When};
use board_doubts::Place;
use board_doubts::Why::{self, AfterGap, Late, OtherTime, TakenBack, Unpressed};
use board_events::Session;
use chess_game::result_at;
use chess_rules::Position;
use dgt_frame::{Event, First, Message};
use settle_core::Seen;
use std::alloc::{AllocError, Global};

/// What comes.
#[derive(Clone, Copy)]
enum Step<'a> {
    /// The board sends a dump.
    Sends(&'a str),
    /// A dump is added by hand.
    Adds(&'a str),
    /// After a time so many dumps come at once: the last one, and those before it.
    SendsAtOnce(u64, &'a str),
    /// A dump is put in with a pair.
    PutsIn(&'a str),
    /// The seconds of White and of Black below one minute, and the status.
    Time(u8, u8, u8),
    /// The same, put in.
    PutsInTime(u8, u8, u8),
    Notes(News),
}

use Step::{Adds, Notes, PutsIn, PutsInTime, Sends, SendsAtOnce, Time};

/// An alarm that is open.
#[derive(Clone, Copy, PartialEq, Eq)]
enum Alarm {
    At(u64, Why),
    After(u64, Why),
    /// Since this ply so many moves were made while the clock was stopped.
    Since(u64, u64),
    /// So many moves after this ply nobody may have played.
    NotPlayed(u64, u64),
    Suspect(u64),
}

use Alarm::{After, At, NotPlayed, Since, Suspect};

struct Case<'a> {
    steps: &'a [(u64, Step<'a>)],
    open: &'a [Alarm],
}

const START: &str = "rnbqkbnr/pppppppp/8/8/8/8/PPPPPPPP/RNBQKBNR";

const E4: &str = "rnbqkbnr/pppppppp/8/8/4P3/8/PPPP1PPP/RNBQKBNR";

/// Its pawn is in a hand.
const LIFTED: &str = "rnbqkbnr/pppppppp/8/8/8/8/PPPP1PPP/RNBQKBNR";

const E3: &str = "rnbqkbnr/pppppppp/8/8/8/4P3/PPPP1PPP/RNBQKBNR";

const E5: &str = "rnbqkbnr/pppp1ppp/8/4p3/4P3/8/PPPP1PPP/RNBQKBNR";

const NF3: &str = "rnbqkbnr/pppp1ppp/8/4p3/4P3/5N2/PPPP1PPP/RNBQKB1R";

const NC6: &str = "r1bqkbnr/pppp1ppp/2n5/4p3/4P3/5N2/PPPP1PPP/RNBQKB1R";

/// After 1. e4 e5 the kings show that Black wins, and after 2. Nf3.
const WON: &str = "rnbq1bnr/pppp1ppp/8/4k3/3KP3/8/PPPP1PPP/RNBQ1BNR";

const WON_LATER: &str = "rnbq1bnr/pppp1ppp/8/4k3/3KP3/5N2/PPPP1PPP/RNBQ1B1R";

const BB5: &str = "r1bqkbnr/pppp1ppp/2n5/1B2p3/4P3/5N2/PPPP1PPP/RNBQK2R";

const A6: &str = "r1bqkbnr/1ppp1ppp/p1n5/1B2p3/4P3/5N2/PPPP1PPP/RNBQK2R";

const BA4: &str = "r1bqkbnr/1ppp1ppp/p1n5/4p3/B3P3/5N2/PPPP1PPP/RNBQK2R";

/// Knights go out, and White's goes home.
const OUT: &str = "rnbqkbnr/pppppppp/8/8/8/5N2/PPPPPPPP/RNBQKB1R";

const BOTH_OUT: &str = "rnbqkb1r/pppppppp/5n2/8/8/5N2/PPPPPPPP/RNBQKB1R";

const HOME: &str = "rnbqkb1r/pppppppp/5n2/8/8/8/PPPPPPPP/RNBQKBNR";

const F3: &str = "rnbqkbnr/pppppppp/8/8/8/5P2/PPPPP1PP/RNBQKBNR";

const F3_E5: &str = "rnbqkbnr/pppp1ppp/8/4p3/8/5P2/PPPPP1PP/RNBQKBNR";

const G4: &str = "rnbqkbnr/pppp1ppp/8/4p3/6P1/5P2/PPPPP2P/RNBQKBNR";

const MATE: &str = "rnb1kbnr/pppp1ppp/8/4p3/6Pq/5P2/PPPPP2P/RNBQKBNR";

/// The clock runs, and its lever is down or up; or it stands.
const RUNS: u8 = 0x01;

const RUNS_UP: u8 = 0x03;

const STANDS: u8 = 0x00;

/// A dump has so many bytes.
const DUMP: u64 = 67;

static CASES: [Case<'static>; 32] = [
    // A correction is late after more than 10 s.
    Case {
        steps: &[
            (0, Sends(START)),
            (1_000, Sends(E4)),
            (2_500, Sends(E4)),
            (4_000, Sends(E4)),
            (5_500, Sends(E4)),
            (7_000, Sends(E4)),
            (8_500, Sends(E4)),
            (10_000, Sends(E4)),
            (11_001, Sends(E3)),
        ],
        open: &[At(1, Late)],
    },
    Case {
        steps: &[
            (0, Sends(START)),
            (1_000, Sends(E4)),
            (2_500, Sends(E4)),
            (4_000, Sends(E4)),
            (5_500, Sends(E4)),
            (7_000, Sends(E4)),
            (8_500, Sends(E4)),
            (10_000, Sends(E4)),
            (11_000, Sends(E3)),
        ],
        open: &[],
    },
    // The same, added by hand.
    Case {
        steps: &[
            (0, Sends(START)),
            (1_000, Sends(E4)),
            (2_500, Sends(E4)),
            (4_000, Sends(E4)),
            (5_500, Sends(E4)),
            (7_000, Sends(E4)),
            (8_500, Sends(E4)),
            (10_000, Sends(E4)),
            (11_001, Adds(E3)),
        ],
        open: &[],
    },
    // Nothing came for 6 s: plies may have been made, whatever the pace. And for less.
    Case {
        steps: &[
            (0, Sends(START)),
            (1_000, Sends(E4)),
            (5_000, Sends(E5)),
            (11_000, Sends(E5)),
        ],
        open: &[After(2, AfterGap)],
    },
    Case {
        steps: &[
            (0, Sends(START)),
            (1_000, Sends(E4)),
            (2_000, Sends(E5)),
            (7_999, Sends(E5)),
        ],
        open: &[],
    },
    // The line was late: five dumps come at once after 6 s. Four are too few.
    Case {
        steps: &[
            (0, Sends(START)),
            (1_000, Sends(E4)),
            (2_000, Sends(E5)),
            (8_000, SendsAtOnce(5, E5)),
        ],
        open: &[],
    },
    Case {
        steps: &[
            (0, Sends(START)),
            (1_000, Sends(E4)),
            (2_000, Sends(E5)),
            (8_000, SendsAtOnce(4, E5)),
        ],
        open: &[After(2, AfterGap)],
    },
    // A pair that is put in takes both sides' last plies back. And another pair.
    Case {
        steps: &[
            (0, Sends(START)),
            (1_000, Sends(OUT)),
            (2_000, Sends(BOTH_OUT)),
            (3_500, Sends(BOTH_OUT)),
            (5_000, Notes(News::PutsIn)),
            (5_000, PutsIn(HOME)),
            (5_000, PutsIn(START)),
        ],
        open: &[At(4, TakenBack)],
    },
    Case {
        steps: &[
            (0, Sends(START)),
            (1_000, Sends(E4)),
            (2_000, Sends(E5)),
            (3_500, Sends(E5)),
            (5_000, Notes(News::PutsIn)),
            (5_000, PutsIn(NF3)),
            (5_000, PutsIn(NC6)),
        ],
        open: &[],
    },
    // A time that is put in doesn't say that the clock stands.
    Case {
        steps: &[
            (0, Sends(START)),
            (100, Time(59, 59, RUNS)),
            (1_000, Sends(E4)),
            (2_000, Sends(E5)),
            (3_000, PutsInTime(59, 59, STANDS)),
            (3_500, Sends(E5)),
            (5_000, Sends(E5)),
            (6_000, Sends(NF3)),
            (7_000, Sends(NC6)),
        ],
        open: &[],
    },
    // What is added by hand doesn't show that the board is heard.
    Case {
        steps: &[
            (0, Sends(START)),
            (1_000, Sends(E4)),
            (2_000, Sends(E5)),
            (8_000, Adds(E5)),
            (12_000, Sends(E5)),
        ],
        open: &[After(2, AfterGap)],
    },
    // The line was gone: there was time for two plies, or not.
    Case {
        steps: &[
            (0, Sends(START)),
            (1_000, Sends(E4)),
            (2_000, Sends(E5)),
            (2_100, Notes(News::Gone)),
            (4_500, Sends(E5)),
        ],
        open: &[After(2, AfterGap)],
    },
    Case {
        steps: &[
            (0, Sends(START)),
            (1_000, Sends(E4)),
            (2_000, Sends(E5)),
            (2_100, Notes(News::Gone)),
            (3_900, Sends(E5)),
        ],
        open: &[],
    },
    // A recorder begins: only players who have just repeated a position are doubted.
    Case {
        steps: &[
            (0, Sends(START)),
            (1_000, Sends(E4)),
            (2_000, Sends(E5)),
            (60_000, Notes(News::Begins)),
            (61_000, Sends(E5)),
        ],
        open: &[],
    },
    Case {
        steps: &[
            (0, Sends(START)),
            (1_000, Sends(OUT)),
            (2_000, Sends(BOTH_OUT)),
            (3_000, Sends(HOME)),
            (4_000, Sends(START)),
            (60_000, Notes(News::Begins)),
            (61_000, Sends(START)),
        ],
        open: &[After(4, AfterGap)],
    },
    // The pieces are to be put where they belong, and stand there, or don't.
    Case {
        steps: &[
            (0, Sends(START)),
            (1_000, Sends(E4)),
            (60_000, Notes(News::Begins)),
            (60_000, Notes(News::PutsBack)),
            (61_000, Sends(E3)),
        ],
        open: &[At(1, AfterGap)],
    },
    Case {
        steps: &[
            (0, Sends(START)),
            (1_000, Sends(E4)),
            (2_000, Sends(LIFTED)),
            (60_000, Notes(News::Begins)),
            (60_000, Notes(News::PutsBack)),
            (61_000, Sends(E3)),
        ],
        open: &[],
    },
    // A game that is over isn't doubted.
    Case {
        steps: &[
            (0, Sends(START)),
            (1_000, Sends(F3)),
            (2_000, Sends(F3_E5)),
            (3_000, Sends(G4)),
            (4_000, Sends(MATE)),
            (30_000, Sends(MATE)),
        ],
        open: &[],
    },
    // Moves are made while the clock is stopped.
    Case {
        steps: &[
            (0, Sends(START)),
            (100, Time(59, 59, RUNS)),
            (1_000, Sends(E4)),
            (2_000, Sends(E5)),
            (3_000, Time(59, 59, STANDS)),
            (4_000, Time(59, 59, STANDS)),
            (5_000, Time(59, 59, STANDS)),
            (6_000, Sends(NF3)),
            (7_000, Sends(NC6)),
        ],
        open: &[Since(2, 1), Since(2, 2)],
    },
    // Somebody has looked.
    Case {
        steps: &[
            (0, Sends(START)),
            (100, Time(59, 59, RUNS)),
            (1_000, Sends(E4)),
            (2_000, Sends(E5)),
            (3_000, Time(59, 59, STANDS)),
            (4_000, Time(59, 59, STANDS)),
            (5_000, Time(59, 59, STANDS)),
            (6_000, Sends(NF3)),
            (6_500, Notes(News::Looked)),
        ],
        open: &[],
    },
    // The clock is stopped, and a piece is pushed; then the result is typed. And shown by the kings.
    Case {
        steps: &[
            (0, Sends(START)),
            (100, Time(59, 59, RUNS)),
            (1_000, Sends(E4)),
            (2_000, Sends(E5)),
            (3_000, Time(59, 59, STANDS)),
            (4_000, Sends(NF3)),
            (9_000, Adds(WON_LATER)),
        ],
        open: &[NotPlayed(2, 1)],
    },
    Case {
        steps: &[
            (0, Sends(START)),
            (100, Time(59, 59, RUNS)),
            (1_000, Sends(E4)),
            (2_000, Sends(E5)),
            (3_000, Time(59, 59, STANDS)),
            (4_000, Sends(NF3)),
            (5_500, Sends(WON_LATER)),
        ],
        open: &[NotPlayed(2, 1)],
    },
    // Nothing is pushed.
    Case {
        steps: &[
            (0, Sends(START)),
            (100, Time(59, 59, RUNS)),
            (1_000, Sends(E4)),
            (2_000, Sends(E5)),
            (3_000, Time(59, 59, STANDS)),
            (5_500, Adds(WON)),
        ],
        open: &[],
    },
    // Nobody presses for the last three plies. The first of them may be the game's last. And for the last one alone.
    Case {
        steps: &[
            (0, Sends(START)),
            (100, Time(59, 59, RUNS)),
            (200, Time(59, 59, RUNS_UP)),
            (1_000, Sends(E4)),
            (2_500, Sends(E5)),
            (4_000, Sends(NF3)),
            (9_000, Adds(WON_LATER)),
        ],
        open: &[NotPlayed(1, 2)],
    },
    Case {
        steps: &[
            (0, Sends(START)),
            (100, Time(59, 59, RUNS)),
            (200, Time(59, 59, RUNS_UP)),
            (1_000, Sends(E4)),
            (2_500, Sends(E5)),
            (3_300, Time(59, 59, RUNS)),
            (4_000, Sends(NF3)),
            (9_000, Adds(WON_LATER)),
        ],
        open: &[],
    },
    // The board is WRONG, and then a move is made. And for less than ten seconds.
    Case {
        steps: &[
            (0, Sends(START)),
            (1_000, Sends(E4)),
            (2_000, Sends(LIFTED)),
            (5_000, Sends(LIFTED)),
            (9_000, Sends(LIFTED)),
            (12_000, Sends(E5)),
            (13_000, Adds(WON)),
        ],
        open: &[NotPlayed(1, 1)],
    },
    Case {
        steps: &[
            (0, Sends(START)),
            (1_000, Sends(E4)),
            (2_000, Sends(LIFTED)),
            (5_000, Sends(LIFTED)),
            (9_000, Sends(LIFTED)),
            (11_999, Sends(E5)),
            (13_000, Adds(WON)),
        ],
        open: &[],
    },
    Case {
        steps: &[
            (0, Sends(START)),
            (1_000, Notes(News::Suspects(3))),
            (2_000, Notes(News::Looked)),
            (3_000, Notes(News::Suspects(7))),
            (4_000, Notes(News::Suspects(9))),
        ],
        open: &[Suspect(7), Suspect(9)],
    },
    // Nobody presses the clock for six plies, though somebody did before. And somebody does.
    Case {
        steps: &[
            (0, Sends(START)),
            (100, Time(59, 59, RUNS)),
            (200, Time(59, 59, RUNS_UP)),
            (1_000, Sends(E4)),
            (2_500, Sends(E5)),
            (4_000, Sends(NF3)),
            (5_500, Sends(NC6)),
            (7_000, Sends(BB5)),
            (8_500, Sends(A6)),
        ],
        open: &[At(6, Unpressed)],
    },
    Case {
        steps: &[
            (0, Sends(START)),
            (100, Time(59, 59, RUNS)),
            (200, Time(59, 59, RUNS_UP)),
            (1_000, Sends(E4)),
            (2_500, Sends(E5)),
            (4_000, Sends(NF3)),
            (4_700, Time(59, 59, RUNS)),
            (5_500, Sends(NC6)),
            (7_000, Sends(BB5)),
            (8_500, Sends(A6)),
        ],
        open: &[],
    },
    // Seven plies are thought about on the other side's time. And on the own one.
    Case {
        steps: &[
            (0, Sends(START)),
            (300, Time(59, 59, RUNS)),
            (2_700, Time(59, 58, RUNS)),
            (3_000, Sends(E4)),
            (5_700, Time(58, 58, RUNS)),
            (6_000, Sends(E5)),
            (8_700, Time(58, 57, RUNS)),
            (9_000, Sends(NF3)),
            (11_700, Time(57, 57, RUNS)),
            (12_000, Sends(NC6)),
            (14_700, Time(57, 56, RUNS)),
            (15_000, Sends(BB5)),
            (17_700, Time(56, 56, RUNS)),
            (18_000, Sends(A6)),
            (20_700, Time(56, 55, RUNS)),
            (21_000, Sends(BA4)),
        ],
        open: &[At(7, OtherTime)],
    },
    Case {
        steps: &[
            (0, Sends(START)),
            (300, Time(59, 59, RUNS)),
            (2_700, Time(58, 59, RUNS)),
            (3_000, Sends(E4)),
            (5_700, Time(58, 58, RUNS)),
            (6_000, Sends(E5)),
            (8_700, Time(57, 58, RUNS)),
            (9_000, Sends(NF3)),
            (11_700, Time(57, 57, RUNS)),
            (12_000, Sends(NC6)),
            (14_700, Time(56, 57, RUNS)),
            (15_000, Sends(BB5)),
            (17_700, Time(56, 56, RUNS)),
            (18_000, Sends(A6)),
            (20_700, Time(55, 56, RUNS)),
            (21_000, Sends(BA4)),
        ],
        open: &[],
    },
];

/// A board and its game.
#[derive(Drop)]
struct Board {
    session: Session,
    alarms: Alarms,
    /// The last picture.
    shown: [u8; 64],
    /// So many bytes the capture has.
    bytes: u64,
}

/// Two digits as a clock sends them.
fn digits(n: u8) -> u8 {
    let tens = (n / 10) % 8;
    tens * 16 + n % 10
}

/// The same bytes, added by hand.
fn added(chunk: Chunk) -> Chunk {
    Chunk {
        when: When {
            is_added: true,
            ..chunk.when
        },
        ..chunk
    }
}

/// The same bytes, put in.
fn put_in(chunk: Chunk) -> Chunk {
    Chunk {
        is_put_in: true,
        ..chunk
    }
}

/// What an event shows in which a session has seen this.
fn sight(seen: Option<Seen>) -> Sight {
    match seen {
        None => Sight::Nothing,
        Some(Seen::Same) => Sight::Again,
        Some(Seen::Moved(_) | Seen::Replaced(_)) => Sight::Moves,
        Some(_) => Sight::Another,
    }
}

/// A dump, if these are codes of pieces.
fn dump_of(codes: [u8; 64]) -> Option<Event>
    ensures { IfSome result (λ event. IsInRange event) }
{
    if codes.iter().all(|code| *code < 16) {
        Some(Event::Message(Message::Dump(codes)))
    } else {
        None
    }
}

/// What a session sees in an event.
fn feed(session: &mut Session, event: Event) -> Result<Option<Seen>, AllocError>
    requires { IsInRange event }
{
    let taken = session.take(event)?;
    Ok(taken.seen)
}

impl Board {
    fn new(alloc: Global) -> Board {
        let start = Position::initial();
        let alarms = Alarms::new(alloc, &start);
        Board {
            session: Session::new(alloc, start, First::White, false),
            alarms,
            shown: [0; 64],
            bytes: 0,
        }
    }

    /// The bytes that come now.
    fn chunk(&mut self, at: u64, size: u64) -> Chunk {
        self.bytes = self.bytes.saturating_add(size);
        Chunk {
            when: When {
                at,
                is_added: false,
            },
            end: self.bytes,
            is_put_in: false,
        }
    }

    fn dump(&mut self, chunk: Chunk, codes: [u8; 64]) -> Result<(), AllocError> {
        self.shown = codes;
        let Some(event) = dump_of(codes) else {
            return Ok(());
        };
        self.event(chunk, event)
    }

    fn time(&mut self, chunk: Chunk, white: u8, black: u8, status: u8) -> Result<(), AllocError> {
        let times = [0, 0, digits(white), 0, 0, digits(black), status];
        let event = Event::Message(Message::Time(times));
        self.event(chunk, event)
    }

    fn event(&mut self, chunk: Chunk, event: Event) -> Result<(), AllocError>
        requires { IsInRange event }
    {
        let seen = feed(&mut self.session, event)?;
        let settler = self.session.settler();
        let result = result_at(settler.position(), settler.sign());
        self.alarms.take(
            chunk,
            &event,
            sight(seen),
            &self.shown,
            &self.session,
            result,
        )
    }

    fn take(&mut self, at: u64, step: Step<'_>) -> Result<(), AllocError> {
        match step {
            Sends(placement) => {
                let chunk = self.chunk(at, DUMP);
                self.dump(chunk, codes_of(placement))
            }
            SendsAtOnce(dumps, placement) => {
                let chunk = self.chunk(at, DUMP.saturating_mul(dumps));
                self.dump(chunk, codes_of(placement))
            }
            Adds(placement) => {
                let chunk = added(self.chunk(at, DUMP));
                self.dump(chunk, codes_of(placement))
            }
            PutsIn(placement) => {
                let chunk = put_in(self.chunk(at, 0));
                self.dump(chunk, codes_of(placement))
            }
            Time(white, black, status) => {
                let chunk = self.chunk(at, 10);
                self.time(chunk, white, black, status)
            }
            PutsInTime(white, black, status) => {
                let chunk = put_in(self.chunk(at, 0));
                self.time(chunk, white, black, status)
            }
            Notes(news) => self.alarms.note(at, news),
        }
    }
}

fn alarm_of(look: &Look) -> Alarm {
    match *look {
        Look::Doubtful { plies, doubt } => match doubt.place {
            Place::AtLast => At(plies, doubt.why),
            Place::AfterLast => After(plies, doubt.why),
        },
        Look::Stopped { plies, moves } => Since(plies, moves),
        Look::Unplayed { plies, moves } => NotPlayed(plies, moves),
        Look::Suspected(n) => Suspect(n),
    }
}

/// Whether just these alarms are open in the end.
fn are_open(alloc: Global, case: &Case<'_>) -> Result<bool, AllocError> {
    let mut board = Board::new(alloc);
    for (at, step) in case.steps {
        board.take(*at, *step)?;
    }
    let looks = board.alarms.open();
    for (i, look) in looks.iter().enumerate() {
        if case.open.get(i).copied() != Some(alarm_of(look)) {
            return Ok(false);
        }
    }
    Ok(looks.len() == case.open.len())
}

/// The number of the first case that is wrong.
fn first_wrong(alloc: Global) -> Option<usize> {
    for (i, case) in CASES.iter().enumerate() {
        if are_open(alloc, case) != Ok(true) {
            return Some(i);
        }
    }
    None
}

#[test]
fn alarms_are_open(rt: HostRuntime) {
    expect_none(&rt, first_wrong(rt.alloc()));
}
