//! How games end, worked by hand: what a board sends when, what is added by hand, and what happens beside it. Each dump has 67 bytes.

ghost use Rattle.std.specs.Prelude.{IfSome};
ghost use Rattle.board_events.specs.History.{IsInRange};

use crate::coded_frames::expect_none;
use crate::doubted::codes_of;
use board_alarms::{Sight, When};
use board_endings::{End, Endings, News};
use board_events::Session;
use chess_game::result_at;
use chess_rules::Position;
use dgt_frame::{Event, First, Message};
use game_over::Outcome::{BlackWins, WhiteWins};
use game_over::Why::{Corrected, PlaysOn, SetUp, Stood, Unfinished};
use game_over::{Outcome, Why};
use settle_core::Seen;
use std::alloc::{AllocError, Global};

/// What comes.
#[derive(Clone, Copy)]
enum Step<'a> {
    /// The board sends a dump.
    Sends(&'a str),
    /// A dump is added by hand.
    Adds(&'a str),
    Notes(News),
}

use Step::{Adds, Notes, Sends};

/// Why a game is over, with which result, how many bytes are its own, and whether that is sure.
type Finish = (Why, Option<Outcome>, u64, bool);

struct Case<'a> {
    steps: &'a [(u64, Step<'a>)],
    /// When it is asked how the game stands.
    now: u64,
    over: Option<Finish>,
    goes_on: Option<u64>,
    begins: Option<u64>,
}

const START: &str = "rnbqkbnr/pppppppp/8/8/8/8/PPPPPPPP/RNBQKBNR";

/// Black's pieces are off the board.
const FAR: &str = "8/8/8/8/8/8/PPPPPPPP/RNBQKBNR";

const E4: &str = "rnbqkbnr/pppppppp/8/8/4P3/8/PPPP1PPP/RNBQKBNR";

const E5: &str = "rnbqkbnr/pppp1ppp/8/4p3/4P3/8/PPPP1PPP/RNBQKBNR";

/// A pawn is in a hand.
const LIFTED: &str = "rnbqkbnr/pppp1ppp/8/4p3/8/8/PPPP1PPP/RNBQKBNR";

const NF3: &str = "rnbqkbnr/pppp1ppp/8/4p3/4P3/5N2/PPPP1PPP/RNBQKB1R";

const NC6: &str = "r1bqkbnr/pppp1ppp/2n5/4p3/4P3/5N2/PPPP1PPP/RNBQKB1R";

const BB5: &str = "r1bqkbnr/pppp1ppp/2n5/1B2p3/4P3/5N2/PPPP1PPP/RNBQK2R";

const A6: &str = "r1bqkbnr/1ppp1ppp/p1n5/1B2p3/4P3/5N2/PPPP1PPP/RNBQK2R";

const CASTLED: &str = "r1bqkbnr/1ppp1ppp/p1n5/1B2p3/4P3/5N2/PPPP1PPP/RNBQ1RK1";

/// The king is carried home first: this looks like Rf1.
const KING_HOME: &str = "r1bqkbnr/1ppp1ppp/p1n5/1B2p3/4P3/5N2/PPPP1PPP/RNBQKR2";

/// A bishop goes out; after a knight it goes home.
const BC4: &str = "rnbqkbnr/pppp1ppp/8/4p3/2B1P3/8/PPPP1PPP/RNBQK1NR";

const KNIGHT: &str = "r1bqkbnr/pppp1ppp/2n5/4p3/2B1P3/8/PPPP1PPP/RNBQK1NR";

const BISHOP_HOME: &str = "r1bqkbnr/pppp1ppp/2n5/4p3/4P3/8/PPPP1PPP/RNBQKBNR";

/// Knights go out, and White's goes home.
const OUT: &str = "rnbqkbnr/pppppppp/8/8/8/5N2/PPPPPPPP/RNBQKB1R";

const BOTH_OUT: &str = "rnbqkb1r/pppppppp/5n2/8/8/5N2/PPPPPPPP/RNBQKB1R";

const HOME: &str = "rnbqkb1r/pppppppp/5n2/8/8/8/PPPPPPPP/RNBQKBNR";

/// After the first of them the kings show that White wins.
const SIGN: &str = "rnbq1bnr/pppppppp/8/3k4/4K3/5N2/PPPPPPPP/RNBQ1B1R";

/// The game goes on from there.
const OUT_E5: &str = "rnbqkbnr/pppp1ppp/8/4p3/8/5N2/PPPPPPPP/RNBQKB1R";

/// It was another knight.
const OTHER: &str = "rnbqkbnr/pppppppp/8/8/8/2N5/PPPPPPPP/R1BQKBNR";

const F3: &str = "rnbqkbnr/pppppppp/8/8/8/5P2/PPPPP1PP/RNBQKBNR";

const F3_E5: &str = "rnbqkbnr/pppp1ppp/8/4p3/8/5P2/PPPPP1PP/RNBQKBNR";

const G4: &str = "rnbqkbnr/pppp1ppp/8/4p3/6P1/5P2/PPPPP2P/RNBQKBNR";

const MATE: &str = "rnb1kbnr/pppp1ppp/8/4p3/6Pq/5P2/PPPPP2P/RNBQKBNR";

/// The queen stands one square before that.
const NO_MATE: &str = "rnb1kbnr/pppp1ppp/8/4p1q1/6P1/5P2/PPPPP2P/RNBQKBNR";

static CASES: [Case<'static>; 30] = [
    // Mate has stood for ten seconds when the board is heard. And for less.
    Case {
        steps: &[
            (0, Sends(START)),
            (1_000, Sends(F3)),
            (2_000, Sends(F3_E5)),
            (3_000, Sends(G4)),
            (4_000, Sends(MATE)),
            (14_000, Sends(MATE)),
        ],
        now: 14_000,
        over: Some((Stood, Some(BlackWins), 335, true)),
        goes_on: None,
        begins: None,
    },
    Case {
        steps: &[
            (0, Sends(START)),
            (1_000, Sends(F3)),
            (2_000, Sends(F3_E5)),
            (3_000, Sends(G4)),
            (4_000, Sends(MATE)),
            (13_999, Sends(MATE)),
        ],
        now: 13_999,
        over: None,
        goes_on: None,
        begins: None,
    },
    // The board isn't heard: seven seconds later it ends all the same, and somebody must look. And not before.
    Case {
        steps: &[
            (0, Sends(START)),
            (1_000, Sends(F3)),
            (2_000, Sends(F3_E5)),
            (3_000, Sends(G4)),
            (4_000, Sends(MATE)),
        ],
        now: 21_000,
        over: Some((Stood, Some(BlackWins), 335, false)),
        goes_on: None,
        begins: None,
    },
    Case {
        steps: &[
            (0, Sends(START)),
            (1_000, Sends(F3)),
            (2_000, Sends(F3_E5)),
            (3_000, Sends(G4)),
            (4_000, Sends(MATE)),
        ],
        now: 20_999,
        over: None,
        goes_on: None,
        begins: None,
    },
    // It is heard only then.
    Case {
        steps: &[
            (0, Sends(START)),
            (1_000, Sends(F3)),
            (2_000, Sends(F3_E5)),
            (3_000, Sends(G4)),
            (4_000, Sends(MATE)),
            (21_000, Sends(MATE)),
        ],
        now: 21_000,
        over: Some((Stood, Some(BlackWins), 335, false)),
        goes_on: None,
        begins: None,
    },
    // What is added isn't heard.
    Case {
        steps: &[
            (0, Sends(START)),
            (1_000, Sends(F3)),
            (2_000, Sends(F3_E5)),
            (3_000, Sends(G4)),
            (4_000, Sends(MATE)),
            (14_000, Adds(MATE)),
        ],
        now: 14_000,
        over: None,
        goes_on: None,
        begins: None,
    },
    // It is corrected.
    Case {
        steps: &[
            (0, Sends(START)),
            (1_000, Sends(F3)),
            (2_000, Sends(F3_E5)),
            (3_000, Sends(G4)),
            (4_000, Sends(MATE)),
            (5_000, Sends(NO_MATE)),
        ],
        now: 30_000,
        over: None,
        goes_on: None,
        begins: None,
    },
    // An arbiter takes it off.
    Case {
        steps: &[
            (0, Sends(START)),
            (1_000, Sends(F3)),
            (2_000, Sends(F3_E5)),
            (3_000, Sends(G4)),
            (4_000, Sends(MATE)),
            (5_000, Notes(News::Reopens)),
        ],
        now: 30_000,
        over: None,
        goes_on: None,
        begins: None,
    },
    // A recorder begins: the ten seconds begin anew.
    Case {
        steps: &[
            (0, Sends(START)),
            (1_000, Sends(F3)),
            (2_000, Sends(F3_E5)),
            (3_000, Sends(G4)),
            (4_000, Sends(MATE)),
            (60_000, Notes(News::Begins)),
        ],
        now: 69_999,
        over: None,
        goes_on: None,
        begins: None,
    },
    Case {
        steps: &[
            (0, Sends(START)),
            (1_000, Sends(F3)),
            (2_000, Sends(F3_E5)),
            (3_000, Sends(G4)),
            (4_000, Sends(MATE)),
            (60_000, Notes(News::Begins)),
            (70_000, Sends(MATE)),
        ],
        now: 70_000,
        over: Some((Stood, Some(BlackWins), 335, true)),
        goes_on: None,
        begins: None,
    },
    // That time has passed is told after it has ended the game: then the game stays so.
    Case {
        steps: &[
            (0, Sends(START)),
            (1_000, Sends(F3)),
            (2_000, Sends(F3_E5)),
            (3_000, Sends(G4)),
            (4_000, Sends(MATE)),
            (21_000, Notes(News::Passes)),
            (60_000, Notes(News::Begins)),
        ],
        now: 60_000,
        over: Some((Stood, Some(BlackWins), 335, false)),
        goes_on: None,
        begins: None,
    },
    // It is told before: the ten seconds begin anew.
    Case {
        steps: &[
            (0, Sends(START)),
            (1_000, Sends(F3)),
            (2_000, Sends(F3_E5)),
            (3_000, Sends(G4)),
            (4_000, Sends(MATE)),
            (20_999, Notes(News::Passes)),
            (60_000, Notes(News::Begins)),
        ],
        now: 69_999,
        over: None,
        goes_on: None,
        begins: None,
    },
    // It is told, and an arbiter reopens the game.
    Case {
        steps: &[
            (0, Sends(START)),
            (1_000, Sends(F3)),
            (2_000, Sends(F3_E5)),
            (3_000, Sends(G4)),
            (4_000, Sends(MATE)),
            (14_000, Sends(MATE)),
            (20_000, Notes(News::Reopens)),
            (60_000, Notes(News::Begins)),
        ],
        now: 90_000,
        over: None,
        goes_on: None,
        begins: None,
    },
    // The kings show the result.
    Case {
        steps: &[
            (0, Sends(START)),
            (1_000, Sends(OUT)),
            (2_000, Sends(SIGN)),
            (12_000, Sends(SIGN)),
        ],
        now: 12_000,
        over: Some((Stood, Some(WhiteWins), 201, true)),
        goes_on: None,
        begins: None,
    },
    // They go back, and show it again: it has stood since then.
    Case {
        steps: &[
            (0, Sends(START)),
            (1_000, Sends(OUT)),
            (2_000, Sends(SIGN)),
            (3_000, Sends(OUT)),
            (9_000, Sends(SIGN)),
            (12_000, Sends(SIGN)),
        ],
        now: 12_000,
        over: Some((Stood, Some(WhiteWins), 201, true)),
        goes_on: None,
        begins: None,
    },
    // Another move is made after it.
    Case {
        steps: &[
            (0, Sends(START)),
            (1_000, Sends(OUT)),
            (2_000, Sends(SIGN)),
            (5_000, Sends(OUT_E5)),
        ],
        now: 5_000,
        over: Some((PlaysOn, Some(WhiteWins), 201, true)),
        goes_on: None,
        begins: None,
    },
    // An arbiter adds one: it takes the result off.
    Case {
        steps: &[
            (0, Sends(START)),
            (1_000, Sends(OUT)),
            (2_000, Sends(SIGN)),
            (5_000, Adds(OUT_E5)),
        ],
        now: 30_000,
        over: None,
        goes_on: None,
        begins: None,
    },
    // The last move is corrected.
    Case {
        steps: &[
            (0, Sends(START)),
            (1_000, Sends(OUT)),
            (2_000, Sends(SIGN)),
            (5_000, Sends(OTHER)),
        ],
        now: 5_000,
        over: Some((Corrected, Some(WhiteWins), 201, false)),
        goes_on: None,
        begins: None,
    },
    // The pieces are set up.
    Case {
        steps: &[
            (0, Sends(START)),
            (1_000, Sends(OUT)),
            (2_000, Sends(SIGN)),
            (6_000, Sends(START)),
        ],
        now: 6_000,
        over: Some((SetUp, Some(WhiteWins), 201, true)),
        goes_on: None,
        begins: None,
    },
    // The result has stood; then one more move is made, and a second one.
    Case {
        steps: &[
            (0, Sends(START)),
            (1_000, Sends(OUT)),
            (2_000, Sends(SIGN)),
            (13_000, Sends(SIGN)),
            (20_000, Sends(OUT_E5)),
        ],
        now: 20_000,
        over: Some((Stood, Some(WhiteWins), 201, true)),
        goes_on: None,
        begins: None,
    },
    Case {
        steps: &[
            (0, Sends(START)),
            (1_000, Sends(OUT)),
            (2_000, Sends(SIGN)),
            (13_000, Sends(SIGN)),
            (20_000, Sends(OUT_E5)),
            (25_000, Sends(NF3)),
        ],
        now: 25_000,
        over: Some((Stood, Some(WhiteWins), 201, true)),
        goes_on: Some(2),
        begins: None,
    },
    // It goes on, and an arbiter says so.
    Case {
        steps: &[
            (0, Sends(START)),
            (1_000, Sends(OUT)),
            (2_000, Sends(SIGN)),
            (13_000, Sends(SIGN)),
            (20_000, Sends(OUT_E5)),
            (25_000, Sends(NF3)),
            (30_000, Notes(News::Reopens)),
        ],
        now: 60_000,
        over: None,
        goes_on: None,
        begins: None,
    },
    // There is no result, and the pieces are set up.
    Case {
        steps: &[
            (0, Sends(START)),
            (1_000, Sends(E4)),
            (20_000, Sends(E5)),
            (40_000, Sends(NF3)),
            (60_000, Sends(FAR)),
            (70_000, Sends(START)),
        ],
        now: 70_000,
        over: Some((Unfinished, None, 268, true)),
        goes_on: None,
        begins: None,
    },
    // A bishop that goes home looks like a move.
    Case {
        steps: &[
            (0, Sends(START)),
            (1_000, Sends(E4)),
            (2_000, Sends(E5)),
            (20_000, Sends(BC4)),
            (30_000, Sends(KNIGHT)),
            (40_000, Sends(BISHOP_HOME)),
            (41_000, Sends(FAR)),
            (45_000, Sends(START)),
        ],
        now: 45_000,
        over: Some((Unfinished, None, 335, false)),
        goes_on: None,
        begins: None,
    },
    // The game has gone back: what was written for that stays.
    Case {
        steps: &[
            (0, Sends(START)),
            (1_000, Sends(E4)),
            (2_000, Sends(E5)),
            (20_000, Sends(BC4)),
            (30_000, Sends(KNIGHT)),
            (40_000, Sends(BISHOP_HOME)),
            (40_000, Notes(News::GoesBack)),
            (41_000, Sends(FAR)),
            (45_000, Sends(START)),
        ],
        now: 45_000,
        over: Some((Unfinished, None, 402, true)),
        goes_on: None,
        begins: None,
    },
    // A castled king that goes home looks like the rook's move.
    Case {
        steps: &[
            (0, Sends(START)),
            (1_000, Sends(E4)),
            (2_000, Sends(E5)),
            (3_000, Sends(NF3)),
            (4_000, Sends(NC6)),
            (5_000, Sends(BB5)),
            (6_000, Sends(A6)),
            (7_000, Sends(CASTLED)),
            (30_000, Sends(KING_HOME)),
            (31_000, Sends(FAR)),
            (35_000, Sends(START)),
        ],
        now: 35_000,
        over: Some((Unfinished, None, 536, false)),
        goes_on: None,
        begins: None,
    },
    // The same picture again says nothing: a hand holds a pawn for long, soon after the last move. So this was played.
    Case {
        steps: &[
            (0, Sends(START)),
            (1_000, Sends(E4)),
            (9_000, Sends(E5)),
            (9_100, Sends(E5)),
            (9_400, Sends(LIFTED)),
            (20_000, Sends(FAR)),
            (25_000, Sends(START)),
        ],
        now: 25_000,
        over: Some((Unfinished, None, 201, true)),
        goes_on: None,
        begins: None,
    },
    // The players play back to the start: that ends no game.
    Case {
        steps: &[
            (0, Sends(START)),
            (1_000, Sends(OUT)),
            (2_000, Sends(BOTH_OUT)),
            (3_000, Sends(FAR)),
            (9_000, Sends(HOME)),
            (10_000, Sends(START)),
        ],
        now: 30_000,
        over: None,
        goes_on: None,
        begins: None,
    },
    // The board has never agreed: its one move was part of the set-up.
    Case {
        steps: &[(0, Sends(FAR)), (1_000, Sends(E4)), (5_000, Sends(START))],
        now: 5_000,
        over: None,
        goes_on: None,
        begins: Some(201),
    },
    // An arbiter has added it: then the game is over.
    Case {
        steps: &[(0, Sends(FAR)), (1_000, Adds(E4)), (5_000, Sends(START))],
        now: 5_000,
        over: Some((Unfinished, None, 134, true)),
        goes_on: None,
        begins: None,
    },
];

/// A board and its game.
#[derive(Drop)]
struct Board {
    session: Session,
    endings: Endings,
    bytes: u64,
}

/// A dump, if these are codes of pieces.
fn dump_of(codes: [u8; 64]) -> Option<Event>
    ensures { IfSome result (λ event. IsInRange event) }
{
    if codes.iter().all(|code| *code < 16) {
        Some(Event::Message(Message::Dump(codes)))
    } else {
        None
    }
}

/// What an event shows in which a session has seen this.
fn sight(seen: Option<Seen>) -> Sight {
    match seen {
        None => Sight::Nothing,
        Some(Seen::Same) => Sight::Again,
        Some(Seen::Moved(_) | Seen::Replaced(_)) => Sight::Moves,
        Some(_) => Sight::Another,
    }
}

/// What a session sees in an event.
fn feed(session: &mut Session, event: Event) -> Result<Option<Seen>, AllocError>
    requires { IsInRange event }
{
    let taken = session.take(event)?;
    Ok(taken.seen)
}

impl Board {
    fn new(alloc: Global) -> Board {
        let start = Position::initial();
        let endings = Endings::new(alloc, &start);
        Board {
            session: Session::new(alloc, start, First::White, false),
            endings,
            bytes: 0,
        }
    }

    fn dump(&mut self, when: When, codes: [u8; 64]) -> Result<(), AllocError> {
        let Some(event) = dump_of(codes) else {
            return Ok(());
        };
        let seen = feed(&mut self.session, event)?;
        let settler = self.session.settler();
        let result = result_at(settler.position(), settler.sign());
        self.bytes = self.bytes.saturating_add(67);
        self.endings.take(when, self.bytes, sight(seen), &codes, &self.session, result)
    }

    fn take(&mut self, at: u64, step: Step<'_>) -> Result<(), AllocError> {
        let sent = When {
            at,
            is_added: false,
        };
        let added = When { at, is_added: true };
        match step {
            Sends(placement) => self.dump(sent, codes_of(placement)),
            Adds(placement) => self.dump(added, codes_of(placement)),
            Notes(news) => self.endings.note(at, news),
        }
    }
}

fn finish_of(end: &End) -> Option<Finish> {
    match end.over {
        None => None,
        Some(over) => Some((over.why, over.result, over.bytes, over.is_sure)),
    }
}

/// How the game of a case stands.
fn end_of(alloc: Global, case: &Case<'_>) -> Result<End, AllocError> {
    let mut board = Board::new(alloc);
    for (at, step) in case.steps {
        board.take(*at, *step)?;
    }
    Ok(board.endings.end(case.now))
}

/// Whether it stands as the case says.
fn is_right(alloc: Global, case: &Case<'_>) -> bool {
    let Ok(end) = end_of(alloc, case) else {
        return false;
    };
    finish_of(&end) == case.over && end.goes_on == case.goes_on && end.begins == case.begins
}

/// The number of the first case that is wrong.
fn first_wrong(alloc: Global) -> Option<usize> {
    for (i, case) in CASES.iter().enumerate() {
        if !is_right(alloc, case) {
            return Some(i);
        }
    }
    None
}

#[test]
fn games_end(rt: HostRuntime) {
    expect_none(&rt, first_wrong(rt.alloc()));
}
