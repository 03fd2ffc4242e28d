//! Which news are doubted, worked by hand: what a board shows when, and what is heard of its game. In most cases Black's queen
//! goes from g4 to f3 with check. In some Kg1 Qg4+ Kh1 Qf3+ come then, once shown whole, and once so that the queen is lifted
//! before the king stands on g1: no picture shows Kg1 whole, and both stand elsewhere then.

use crate::coded_frames::{expect_none, first_false};
use board_doubts::Place::{AfterLast, AtLast};
use board_doubts::Why::{
    AfterGap, BothElsewhere, Elsewhere, Late, MovedOn, OtherTime, Returned, TakenBack, Unpressed,
};
use board_doubts::{Doubt, Doubts, Event, Gap, Heard, Place, Played, Ply, Why, seen};

/// What is shown or heard.
#[derive(Clone, Copy)]
enum Step<'a> {
    /// The position that a game begins with, or that a move leads to, and whether Black is to move.
    Position(&'a str, bool),
    Picture(&'a str),
    Moves,
    /// A move to a position that was there before.
    Repeats,
    Corrects,
    /// The move before goes from one square to another.
    Goes(u8, u8),
    /// So does the correction before.
    GoesInstead(u8, u8),
    Runs,
    Presses,
    /// Black's time goes down, or White's.
    Counts(bool),
    Agrees,
    Ends,
    Reopens,
    /// Plies are taken off, or the game is taken up, while the board shows this.
    Back(&'a str),
    /// The board's first dump after a gap is the picture that it showed last.
    Stands,
    /// So many milliseconds.
    Away(u64),
    Restart(u64),
}

use Front::{
    Beside, Bishops, Clocked, Kings, Knight, Knights, Paced, PutBack, Queen, Twice, Unclocked,
};
use Step::{
    Agrees, Away, Back, Corrects, Counts, Ends, Goes, GoesInstead, Moves, Picture, Position,
    Presses, Reopens, Repeats, Restart, Runs, Stands,
};

/// How many plies were made, and what is doubted then.
type Expected = (u8, Place, Why);

/// What comes first.
#[derive(Clone, Copy)]
enum Front {
    Nothing,
    Queen,
    /// What comes behind that of the queen.
    PutBack,
    Twice,
    Beside,
    Knight,
    Kings,
    Paced,
    Clocked,
    Unclocked,
    Bishops,
    Knights,
}

struct Case<'a> {
    front: Front,
    steps: &'a [(u64, Step<'a>)],
    doubts: &'a [Expected],
}

/// A board and its game.
#[derive(Clone, Copy)]
struct Game {
    doubts: Doubts,
    position: [u8; 64],
    before: [u8; 64],
    earlier: [u8; 64],
    shown: [u8; 64],
    black: bool,
    has_begun: bool,
    is_new: bool,
    plies: u8,
}

/// The code of a piece's letter; 0 of another one.
fn code_of(letter: u8) -> u8 {
    match letter {
        b'P' => 1,
        b'R' => 2,
        b'N' => 3,
        b'B' => 4,
        b'K' => 5,
        b'Q' => 6,
        b'p' => 7,
        b'r' => 8,
        b'n' => 9,
        b'b' => 10,
        b'k' => 11,
        b'q' => 12,
        _ => 0,
    }
}

/// The codes of a placement.
pub fn codes_of(placement: &str) -> [u8; 64] {
    let mut codes = [0u8; 64];
    let mut square = 0usize;
    for byte in placement.as_bytes() {
        let code = code_of(*byte);
        if code != 0 && square < 64 {
            codes[square] = code;
            square += 1;
        } else if b'1' <= *byte && *byte <= b'8' {
            square = square.saturating_add((*byte - b'0') as usize);
        }
    }
    codes
}

impl Game {
    fn new() -> Game {
        Game {
            doubts: Doubts::new(),
            position: [0; 64],
            before: [0; 64],
            earlier: [0; 64],
            shown: [0; 64],
            black: false,
            has_begun: false,
            is_new: false,
            plies: 0,
        }
    }

    /// The game has come to a position.
    fn reach(&mut self, position: [u8; 64], black: bool) {
        if !self.has_begun {
            self.before = position;
            self.earlier = position;
        } else if self.is_new {
            self.earlier = if self.plies == 1 {
                self.position
            } else {
                self.before
            };
            self.before = self.position;
        }
        self.position = position;
        self.black = black;
        self.has_begun = true;
        self.is_new = false;
    }

    /// What is heard of the picture that is shown now.
    fn sees(&self) -> Heard {
        let played = Played {
            black: self.black,
            position: &self.position,
            before: &self.before,
            earlier: &self.earlier,
        };
        Heard::Shows(seen(&played, &self.shown))
    }

    /// A move is made.
    fn moves(&mut self, repeats: bool) -> Heard {
        self.plies = self.plies.saturating_add(1);
        self.is_new = true;
        Heard::Moves { repeats }
    }

    /// The last ply goes from one square to another.
    fn ply(&self, from: u8, to: u8) -> Ply {
        Ply {
            from,
            to,
            black: self.plies % 2 == 0,
        }
    }

    /// What is heard of a step, if anything.
    fn heard(&mut self, step: Step<'_>) -> Option<Heard> {
        match step {
            Position(placement, black) => {
                self.reach(codes_of(placement), black);
                None
            }
            Picture(placement) => {
                self.shown = codes_of(placement);
                Some(self.sees())
            }
            Moves => Some(self.moves(false)),
            Repeats => Some(self.moves(true)),
            Corrects => Some(Heard::Corrects { repeats: false }),
            Goes(from, to) => Some(Heard::Plays(self.ply(from, to))),
            GoesInstead(from, to) => Some(Heard::Replaces(self.ply(from, to))),
            Runs => Some(Heard::Clock { runs: true }),
            Presses => Some(Heard::Presses),
            Counts(black) => Some(Heard::Counts { black }),
            Agrees => Some(Heard::Agrees),
            Ends => Some(Heard::Ends),
            Reopens => Some(Heard::Reopens),
            Back(placement) => {
                self.shown = codes_of(placement);
                if self.shown == self.position {
                    None
                } else {
                    Some(Heard::PutsBack)
                }
            }
            Stands => {
                if self.shown == self.position {
                    Some(Heard::Agrees)
                } else {
                    None
                }
            }
            Away(lasted) => Some(away(lasted, false)),
            Restart(lasted) => Some(away(lasted, true)),
        }
    }

    /// What is doubted in a step.
    fn doubt(&mut self, at: u64, step: Step<'_>) -> Option<Doubt> {
        let what = self.heard(step)?;
        self.doubts.take(Event {
            at,
            is_added: false,
            what,
        })
    }

    /// Takes steps. Returns how many of these doubts came, in this order, or `None` if another one did.
    fn play(
        &mut self,
        steps: &[(u64, Step<'_>)],
        expected: &[Expected],
        found: usize,
    ) -> Option<usize> {
        let mut found = found;
        for (at, step) in steps {
            if let Some(doubt) = self.doubt(*at, *step) {
                if expected.get(found).copied() != Some((self.plies, doubt.place, doubt.why)) {
                    return None;
                }
                found = found.saturating_add(1);
            }
        }
        Some(found)
    }
}

fn away(lasted: u64, is_restart: bool) -> Heard {
    Heard::Away(Gap { lasted, is_restart })
}

fn steps_of(front: Front) -> &'static [(u64, Step<'static>)] {
    match front {
        Front::Nothing => &[],
        Queen => &BEGUN,
        PutBack => &BACK_IN_PLACE,
        Twice => &HIDDEN_TWICE,
        Beside => &KING_AND_QUEEN,
        Knight => &KNIGHT,
        Kings => &REPEATED,
        Paced => &PLIES,
        Clocked => &PRESSED,
        Unclocked => &UNPRESSED,
        Bishops => &BISHOPS,
        Knights => &KNIGHTS,
    }
}

/// What comes before that.
fn before(front: Front) -> Front {
    match front {
        PutBack | Twice | Beside => Queen,
        _ => Front::Nothing,
    }
}

/// Whether just these doubts come.
fn is_right(case: &Case<'_>) -> bool {
    let mut game = Game::new();
    let Some(found) = game.play(steps_of(before(case.front)), case.doubts, 0) else {
        return false;
    };
    let Some(found) = game.play(steps_of(case.front), case.doubts, found) else {
        return false;
    };
    game.play(case.steps, case.doubts, found) == Some(case.doubts.len())
}

/// Whether all of these cases are right.
fn are_right(cases: &[Case<'_>]) -> bool {
    for case in cases {
        if !is_right(case) {
            return false;
        }
    }
    true
}

/// The queen goes to f3.
static BEGUN: [(u64, Step<'static>); 6] = [
    (0, Position("k7/8/8/8/6q1/8/8/7K", true)),
    (0, Picture("k7/8/8/8/6q1/8/8/7K")),
    (0, Agrees),
    (5_000, Picture("k7/8/8/8/8/5q2/8/7K")),
    (5_000, Moves),
    (5_000, Position("k7/8/8/8/8/5q2/8/7K", false)),
];

/// The game goes on while its pieces stand elsewhere: a slow hand puts them where they belong.
static BACK_IN_PLACE: [(u64, Step<'static>); 7] = [
    (5_000, Back("k7/8/8/8/6q1/8/8/6K1")),
    (5_000, Restart(300)),
    (30_000, Picture("k7/8/8/8/6q1/8/8/8")),
    (31_000, Picture("k7/8/8/8/6q1/8/8/7K")),
    (32_000, Picture("k7/8/8/8/8/8/8/7K")),
    (33_000, Picture("k7/8/8/8/8/5q2/8/7K")),
    (33_000, Agrees),
];

/// Two plies are hidden.
static HIDDEN_TWICE: [(u64, Step<'static>); 7] = [
    (8_000, Picture("k7/8/8/8/8/5q2/8/8")),
    (8_200, Picture("k7/8/8/8/8/8/8/8")),
    (8_500, Picture("k7/8/8/8/8/8/8/6K1")),
    (8_700, Picture("k7/8/8/8/6q1/8/8/6K1")),
    (10_000, Picture("k7/8/8/8/6q1/8/8/8")),
    (10_300, Picture("k7/8/8/8/6q1/8/8/7K")),
    (12_000, Picture("k7/8/8/8/8/8/8/7K")),
];

/// The queen is in hand while the king is set down, and shows beside its square.
static KING_AND_QUEEN: [(u64, Step<'static>); 4] = [
    (6_000, Picture("k7/8/8/8/8/5q2/8/8")),
    (6_100, Picture("k7/8/8/8/8/8/8/8")),
    (6_300, Picture("k7/8/8/8/8/8/8/6K1")),
    (6_500, Picture("k7/8/8/8/8/6q1/8/6K1")),
];

/// A game that is played, ends, or is taken up.
static PLAYED: [Case<'static>; 6] = [
    // nothing but a move
    Case {
        front: Queen,
        steps: &[],
        doubts: &[],
    },
    // the kings show a result, and are put back
    Case {
        front: Queen,
        steps: &[
            (6_000, Picture("8/8/8/8/8/5q2/8/7K")),
            (6_500, Picture("8/8/8/3k4/8/5q2/8/7K")),
            (7_000, Picture("8/8/8/3k4/8/5q2/8/8")),
            (7_500, Picture("8/8/8/3k4/4K3/5q2/8/8")),
            (7_500, Ends),
            (9_000, Picture("8/8/8/8/4K3/5q2/8/8")),
            (9_500, Picture("k7/8/8/8/4K3/5q2/8/8")),
            (10_000, Picture("k7/8/8/8/8/5q2/8/8")),
            (10_500, Picture("k7/8/8/8/8/5q2/8/7K")),
            (10_500, Agrees),
        ],
        doubts: &[],
    },
    // moves that are put in are told as such already
    Case {
        front: Queen,
        steps: &[
            (8_000, Picture("k7/8/8/8/8/5q2/8/8")),
            (8_200, Picture("k7/8/8/8/8/8/8/8")),
            (8_500, Picture("k7/8/8/8/8/8/8/6K1")),
            (8_700, Picture("k7/8/8/8/6q1/8/8/6K1")),
            (12_000, Picture("k7/8/8/8/6q1/8/8/7K")),
            (12_000, Reopens),
            (12_000, Moves),
            (12_000, Position("k7/8/8/8/8/5q2/8/6K1", true)),
            (12_000, Moves),
            (12_000, Position("k7/8/8/8/6q1/8/8/6K1", false)),
            (12_000, Moves),
        ],
        doubts: &[],
    },
    // the game goes on while its pieces stand elsewhere: a slow hand puts them where they belong
    Case {
        front: PutBack,
        steps: &[],
        doubts: &[],
    },
    // the same, and later once more
    Case {
        front: PutBack,
        steps: &[
            (40_000, Picture("k7/8/8/8/6q1/8/8/7K")),
            (41_000, Picture("k7/8/8/8/6q1/8/8/6K1")),
            (42_000, Picture("k7/8/8/8/6q1/8/8/7K")),
            (43_000, Picture("k7/8/8/8/8/5q2/8/7K")),
            (43_000, Agrees),
        ],
        doubts: &[(1, AfterLast, BothElsewhere)],
    },
    // the game goes on with its pieces in place, and then they stand elsewhere
    Case {
        front: Queen,
        steps: &[
            (5_000, Back("k7/8/8/8/8/5q2/8/7K")),
            (10_000, Picture("k7/8/8/8/6q1/8/8/7K")),
            (11_000, Picture("k7/8/8/8/6q1/8/8/6K1")),
            (12_000, Picture("k7/8/8/8/6q1/8/8/7K")),
            (13_000, Picture("k7/8/8/8/8/5q2/8/7K")),
            (13_000, Agrees),
        ],
        doubts: &[(1, AfterLast, BothElsewhere)],
    },
];

fn played_on() -> bool {
    are_right(&PLAYED)
}

/// Corrections.
static CORRECTED: [Case<'static>; 7] = [
    // a correction at once
    Case {
        front: Queen,
        steps: &[
            (6_000, Picture("k7/8/8/8/8/8/8/7K")),
            (6_500, Picture("k7/8/8/8/8/8/4q3/7K")),
            (6_500, Corrects),
        ],
        doubts: &[],
    },
    // a correction 10 s after its move
    Case {
        front: Queen,
        steps: &[
            (14_500, Picture("k7/8/8/8/8/8/8/7K")),
            (15_000, Picture("k7/8/8/8/8/8/4q3/7K")),
            (15_000, Corrects),
        ],
        doubts: &[],
    },
    // a correction after that
    Case {
        front: Queen,
        steps: &[
            (14_500, Picture("k7/8/8/8/8/8/8/7K")),
            (15_100, Picture("k7/8/8/8/8/8/4q3/7K")),
            (15_100, Corrects),
        ],
        doubts: &[(1, AtLast, Late)],
    },
    // the move is taken back, and thought about again
    Case {
        front: Queen,
        steps: &[
            (6_000, Picture("k7/8/8/8/6q1/8/8/7K")),
            (40_000, Picture("k7/8/8/8/8/8/8/7K")),
            (40_500, Picture("k7/8/8/8/8/8/4q3/7K")),
            (40_500, Corrects),
        ],
        doubts: &[],
    },
    // the piece that a correction gives back stood there before
    Case {
        front: Front::Nothing,
        steps: &[
            (0, Position("k7/8/8/8/5Nq1/8/8/7K", true)),
            (0, Agrees),
            (5_000, Picture("k7/8/8/8/5q2/8/8/7K")),
            (5_000, Moves),
            (5_000, Position("k7/8/8/8/5q2/8/8/7K", false)),
            (6_000, Picture("k7/8/8/8/8/8/8/7K")),
            (6_500, Picture("k7/8/8/8/5N2/8/8/7K")),
            (7_500, Picture("k7/8/8/8/5N2/5q2/8/7K")),
            (7_500, Corrects),
        ],
        doubts: &[],
    },
    // a correction that comes first after a gap
    Case {
        front: Queen,
        steps: &[
            (5_000, Away(1_000)),
            (7_000, Picture("k7/8/8/8/8/8/8/7K")),
            (7_400, Picture("k7/8/8/8/8/8/4q3/7K")),
            (7_400, Corrects),
        ],
        doubts: &[(1, AtLast, AfterGap)],
    },
    // a correction after a gap and an agreement
    Case {
        front: Queen,
        steps: &[
            (5_000, Away(1_000)),
            (7_000, Picture("k7/8/8/8/8/5q2/8/8")),
            (7_200, Picture("k7/8/8/8/8/5q2/8/7K")),
            (7_200, Agrees),
            (8_000, Picture("k7/8/8/8/8/8/8/7K")),
            (8_400, Picture("k7/8/8/8/8/8/4q3/7K")),
            (8_400, Corrects),
        ],
        doubts: &[],
    },
];

fn corrected() -> bool {
    are_right(&CORRECTED)
}

/// Plies that no picture shows whole.
static HIDDEN: [Case<'static>; 5] = [
    // two plies are hidden, and what comes then looks like a correction
    Case {
        front: Twice,
        steps: &[(12_400, Picture("k7/8/8/8/8/8/4q3/7K")), (12_400, Corrects)],
        doubts: &[(1, AtLast, Elsewhere)],
    },
    // two plies are hidden, and the next two lead back
    Case {
        front: Twice,
        steps: &[(12_400, Picture("k7/8/8/8/8/5q2/8/7K")), (12_400, Agrees)],
        doubts: &[(1, AfterLast, BothElsewhere)],
    },
    // the king stands on g1 for 0.1 s while the queen is in hand, and goes back
    Case {
        front: Queen,
        steps: &[
            (6_000, Picture("k7/8/8/8/8/8/8/7K")),
            (6_100, Picture("k7/8/8/8/8/8/8/6K1")),
            (6_200, Picture("k7/8/8/8/8/8/8/7K")),
            (6_300, Picture("k7/8/8/8/8/8/8/7K")),
            (6_500, Picture("k7/8/8/8/8/8/4q3/7K")),
            (6_500, Corrects),
        ],
        doubts: &[(1, AtLast, Elsewhere)],
    },
    // it is drawn over g1 in less
    Case {
        front: Queen,
        steps: &[
            (6_000, Picture("k7/8/8/8/8/8/8/7K")),
            (6_100, Picture("k7/8/8/8/8/8/8/6K1")),
            (6_190, Picture("k7/8/8/8/8/8/8/7K")),
            (6_300, Picture("k7/8/8/8/8/8/8/7K")),
            (6_500, Picture("k7/8/8/8/8/8/4q3/7K")),
            (6_500, Corrects),
        ],
        doubts: &[],
    },
    // the king is lifted and set back: in hand alone
    Case {
        front: Queen,
        steps: &[
            (6_000, Picture("k7/8/8/8/8/5q2/8/8")),
            (6_200, Picture("k7/8/8/8/8/8/8/8")),
            (7_000, Picture("k7/8/8/8/8/8/8/7K")),
            (7_000, Picture("k7/8/8/8/8/8/8/7K")),
            (7_500, Picture("k7/8/8/8/8/8/4q3/7K")),
            (7_500, Corrects),
        ],
        doubts: &[],
    },
];

fn hidden() -> bool {
    are_right(&HIDDEN)
}

/// Pieces that are straightened.
static STRAIGHTENED: [Case<'static>; 4] = [
    // the queen is straightened while the king is set down, and shows beside f3 for a moment
    Case {
        front: Beside,
        steps: &[
            (7_400, Picture("k7/8/8/8/8/8/8/6K1")),
            (7_500, Picture("k7/8/8/8/8/5q2/8/6K1")),
            (7_500, Moves),
        ],
        doubts: &[],
    },
    // it stands on g3 for a second, and comes back to f3: that is another move of Black's
    Case {
        front: Beside,
        steps: &[
            (7_500, Picture("k7/8/8/8/8/8/8/6K1")),
            (8_500, Picture("k7/8/8/8/8/5q2/8/6K1")),
            (8_500, Moves),
        ],
        doubts: &[(2, AtLast, BothElsewhere)],
    },
    // the king of the other side is straightened beside its square meanwhile: it isn't the piece that moved
    Case {
        front: Queen,
        steps: &[
            (6_000, Picture("k7/8/8/8/8/5q2/8/8")),
            (6_100, Picture("8/8/8/8/8/5q2/8/8")),
            (6_300, Picture("8/8/8/8/8/5q2/8/6K1")),
            (6_500, Picture("1k6/8/8/8/8/5q2/8/6K1")),
            (9_000, Picture("8/8/8/8/8/5q2/8/6K1")),
            (9_100, Picture("k7/8/8/8/8/5q2/8/6K1")),
            (9_100, Moves),
        ],
        doubts: &[],
    },
    // and both kings stood elsewhere: White's on h2 first
    Case {
        front: Queen,
        steps: &[
            (6_000, Picture("k7/8/8/8/8/5q2/8/8")),
            (6_100, Picture("8/8/8/8/8/5q2/8/8")),
            (6_300, Picture("8/8/8/8/8/5q2/7K/8")),
            (6_500, Picture("1k6/8/8/8/8/5q2/7K/8")),
            (8_000, Picture("1k6/8/8/8/8/5q2/8/8")),
            (8_300, Picture("1k6/8/8/8/8/5q2/8/6K1")),
            (9_000, Picture("8/8/8/8/8/5q2/8/6K1")),
            (9_100, Picture("k7/8/8/8/8/5q2/8/6K1")),
            (9_100, Moves),
        ],
        doubts: &[(2, AtLast, BothElsewhere)],
    },
];

fn straightened() -> bool {
    are_right(&STRAIGHTENED)
}

/// Pieces that go and come, or are drawn over a square.
static DRAWN: [Case<'static>; 3] = [
    // the king stands on g1, goes back and comes again, and a queen on e8 goes and comes meanwhile
    Case {
        front: Front::Nothing,
        steps: &[
            (0, Position("k3q3/8/8/8/6q1/8/8/7K", true)),
            (0, Agrees),
            (5_000, Picture("k3q3/8/8/8/8/5q2/8/7K")),
            (5_000, Moves),
            (5_000, Position("k3q3/8/8/8/8/5q2/8/7K", false)),
            (8_000, Picture("k3q3/8/8/8/8/5q2/8/8")),
            (8_100, Picture("k7/8/8/8/8/5q2/8/8")),
            (8_400, Picture("k7/8/8/8/8/5q2/8/6K1")),
            (8_600, Picture("k6q/8/8/8/8/5q2/8/6K1")),
            (11_000, Picture("k6q/8/8/8/8/5q2/8/8")),
            (11_300, Picture("k6q/8/8/8/8/5q2/8/7K")),
            (13_000, Picture("k7/8/8/8/8/5q2/8/7K")),
            (13_100, Picture("k7/8/8/8/8/5q2/8/8")),
            (13_400, Picture("k7/8/8/8/8/5q2/8/6K1")),
            (13_600, Picture("k3q3/8/8/8/8/5q2/8/6K1")),
            (13_600, Moves),
        ],
        doubts: &[(2, AtLast, BothElsewhere)],
    },
    // the queen stands on g3 for 0.2 s, and is drawn over f3 as the king stands on g1
    Case {
        front: Beside,
        steps: &[
            (6_700, Picture("k7/8/8/8/8/8/8/6K1")),
            (7_000, Picture("k7/8/8/8/8/5q2/8/6K1")),
            (7_000, Moves),
            (7_000, Position("k7/8/8/8/8/5q2/8/6K1", true)),
            (7_100, Picture("k7/8/8/8/8/8/8/6K1")),
        ],
        doubts: &[(2, AtLast, BothElsewhere)],
    },
    // and it stays there
    Case {
        front: Beside,
        steps: &[
            (6_700, Picture("k7/8/8/8/8/8/8/6K1")),
            (7_000, Picture("k7/8/8/8/8/5q2/8/6K1")),
            (7_000, Moves),
            (7_000, Position("k7/8/8/8/8/5q2/8/6K1", true)),
            (7_200, Picture("k7/8/8/8/8/8/8/6K1")),
        ],
        doubts: &[],
    },
];

fn drawn() -> bool {
    are_right(&DRAWN)
}

/// Black's knight has gone to f6. It stands elsewhere, and so does a piece of White's, which goes back.
static KNIGHT: [(u64, Step<'static>); 6] = [
    (0, Position("k5n1/8/8/8/8/8/6P1/R6K", true)),
    (0, Picture("k5n1/8/8/8/8/8/6P1/R6K")),
    (0, Agrees),
    (5_000, Picture("k7/8/5n2/8/8/8/6P1/R6K")),
    (5_000, Moves),
    (5_000, Position("k7/8/5n2/8/8/8/6P1/R6K", false)),
];

/// Pieces that may have gone where they stand, or may not.
static GOING: [Case<'static>; 4] = [
    // the knight may have gone to e4, and the rook to a5
    Case {
        front: Knight,
        steps: &[
            (6_000, Picture("k7/8/8/8/8/8/6P1/R6K")),
            (6_200, Picture("k7/8/8/8/4n3/8/6P1/R6K")),
            (6_400, Picture("k7/8/8/R7/4n3/8/6P1/7K")),
            (6_800, Picture("k7/8/8/8/4n3/8/6P1/R6K")),
            (7_500, Picture("k7/8/8/8/8/8/6P1/R6K")),
            (7_600, Picture("k7/8/5n2/8/8/8/6P1/R6K")),
            (7_600, Agrees),
        ],
        doubts: &[(1, AfterLast, BothElsewhere)],
    },
    // the rook is beside its square, to which it can't have gone
    Case {
        front: Knight,
        steps: &[
            (6_000, Picture("k7/8/8/8/8/8/6P1/R6K")),
            (6_200, Picture("k7/8/8/8/4n3/8/6P1/R6K")),
            (6_400, Picture("k7/8/8/8/4n3/8/1R4P1/7K")),
            (6_800, Picture("k7/8/8/8/4n3/8/6P1/R6K")),
            (7_500, Picture("k7/8/8/8/8/8/6P1/R6K")),
            (7_600, Picture("k7/8/5n2/8/8/8/6P1/R6K")),
            (7_600, Agrees),
        ],
        doubts: &[],
    },
    // so is the knight
    Case {
        front: Knight,
        steps: &[
            (6_000, Picture("k7/8/8/8/8/8/6P1/R6K")),
            (6_200, Picture("k7/8/8/5n2/8/8/6P1/R6K")),
            (6_400, Picture("k7/8/8/R4n2/8/8/6P1/7K")),
            (6_800, Picture("k7/8/8/5n2/8/8/6P1/R6K")),
            (7_500, Picture("k7/8/8/8/8/8/6P1/R6K")),
            (7_600, Picture("k7/8/5n2/8/8/8/6P1/R6K")),
            (7_600, Agrees),
        ],
        doubts: &[],
    },
    // a pawn has gone to g4, and never comes back
    Case {
        front: Knight,
        steps: &[
            (6_000, Picture("k7/8/8/8/8/8/6P1/R6K")),
            (6_200, Picture("k7/8/8/8/4n3/8/6P1/R6K")),
            (6_400, Picture("k7/8/8/8/4n1P1/8/8/R6K")),
            (6_800, Picture("k7/8/8/8/4n3/8/6P1/R6K")),
            (7_500, Picture("k7/8/8/8/8/8/6P1/R6K")),
            (7_600, Picture("k7/8/5n2/8/8/8/6P1/R6K")),
            (7_600, Agrees),
        ],
        doubts: &[],
    },
];

fn going() -> bool {
    are_right(&GOING)
}

/// Times in which the board wasn't heard.
static AWAY: [Case<'static>; 8] = [
    // a move that comes first after a gap of three seconds, and the pace isn't known
    Case {
        front: Queen,
        steps: &[
            (5_000, Away(3_000)),
            (7_000, Picture("k7/8/8/8/8/5q2/8/6K1")),
            (7_000, Moves),
        ],
        doubts: &[(2, AtLast, AfterGap)],
    },
    // a gap before the first move hides none
    Case {
        front: Front::Nothing,
        steps: &[
            (0, Position("k7/8/8/8/6q1/8/8/7K", true)),
            (0, Picture("k7/8/8/8/6q1/8/8/7K")),
            (0, Agrees),
            (0, Away(60_000)),
            (61_000, Picture("k7/8/8/8/8/5q2/8/7K")),
            (61_000, Moves),
        ],
        doubts: &[],
    },
    // nor does one after which the start stands as before
    Case {
        front: Front::Nothing,
        steps: &[
            (0, Position("k7/8/8/8/6q1/8/8/7K", true)),
            (0, Picture("k7/8/8/8/6q1/8/8/7K")),
            (0, Agrees),
            (0, Away(60_000)),
            (60_000, Stands),
        ],
        doubts: &[],
    },
    // but while the clock runs, four plies may have led back to it
    Case {
        front: Front::Nothing,
        steps: &[
            (0, Position("k7/8/8/8/6q1/8/8/7K", true)),
            (0, Picture("k7/8/8/8/6q1/8/8/7K")),
            (0, Agrees),
            (0, Runs),
            (0, Away(60_000)),
            (60_000, Stands),
        ],
        doubts: &[(0, AfterLast, AfterGap)],
    },
    // it stands as before after a gap of 5 s
    Case {
        front: Queen,
        steps: &[(5_000, Away(5_000)), (66_000, Stands)],
        doubts: &[(1, AfterLast, AfterGap)],
    },
    // it stands as before after a shorter one, and then there is a move
    Case {
        front: Queen,
        steps: &[
            (5_000, Away(4_900)),
            (66_000, Stands),
            (70_000, Picture("k7/8/8/8/8/5q2/8/6K1")),
            (70_000, Moves),
        ],
        doubts: &[],
    },
    // it stands as before after a restart, and then there is a move
    Case {
        front: Queen,
        steps: &[
            (5_000, Restart(60_000)),
            (66_000, Stands),
            (70_000, Picture("k7/8/8/8/8/5q2/8/6K1")),
            (70_000, Moves),
        ],
        doubts: &[],
    },
    // it stands as before after a restart, but the players repeat moves
    Case {
        front: Queen,
        steps: &[
            (8_000, Picture("k7/8/8/8/8/5q2/8/6K1")),
            (8_000, Moves),
            (8_000, Position("k7/8/8/8/8/5q2/8/6K1", true)),
            (11_000, Picture("k7/8/8/8/6q1/8/8/6K1")),
            (11_000, Moves),
            (11_000, Position("k7/8/8/8/6q1/8/8/6K1", false)),
            (14_000, Picture("k7/8/8/8/6q1/8/8/7K")),
            (14_000, Repeats),
            (14_000, Position("k7/8/8/8/6q1/8/8/7K", true)),
            (17_000, Picture("k7/8/8/8/8/5q2/8/7K")),
            (17_000, Repeats),
            (17_000, Position("k7/8/8/8/8/5q2/8/7K", false)),
            (17_000, Restart(3_000)),
            (100_000, Stands),
        ],
        doubts: &[(5, AfterLast, AfterGap)],
    },
];

fn away_for_long() -> bool {
    are_right(&AWAY)
}

/// Pieces that moved more than once meanwhile.
static ASTRAY: [Case<'static>; 3] = [
    // the board isn't heard while Re1 Rf5 Re8 Rf4 are played, and then Re1 looks like a move from d1
    Case {
        front: Front::Nothing,
        steps: &[
            (0, Position("8/8/8/8/5r2/k7/6K1/3R4", false)),
            (0, Agrees),
            (1_000, Restart(9_000)),
            (10_000, Picture("4R3/8/8/8/5r2/k7/6K1/8")),
            (11_000, Picture("8/8/8/8/5r2/k7/6K1/8")),
            (11_400, Picture("8/8/8/8/5r2/k7/6K1/4R3")),
            (11_400, Moves),
        ],
        doubts: &[(1, AtLast, BothElsewhere)],
    },
    // a pawn stands on e3 as it is heard again, and goes on
    Case {
        front: Front::Nothing,
        steps: &[
            (0, Position("8/8/8/8/5r2/k7/4P1K1/8", false)),
            (0, Agrees),
            (1_000, Away(9_000)),
            (10_000, Picture("8/8/8/8/5r2/k3P3/6K1/8")),
            (11_000, Picture("8/8/8/8/5r2/k7/6K1/8")),
            (11_400, Picture("8/8/8/8/4Pr2/k7/6K1/8")),
            (11_400, Moves),
        ],
        doubts: &[(1, AtLast, BothElsewhere)],
    },
    // the same while the board is heard
    Case {
        front: Front::Nothing,
        steps: &[
            (0, Position("8/8/8/8/5r2/k7/4P1K1/8", false)),
            (0, Agrees),
            (10_000, Picture("8/8/8/8/5r2/k3P3/6K1/8")),
            (11_000, Picture("8/8/8/8/5r2/k7/6K1/8")),
            (11_400, Picture("8/8/8/8/4Pr2/k7/6K1/8")),
            (11_400, Moves),
        ],
        doubts: &[],
    },
];

fn stray() -> bool {
    are_right(&ASTRAY)
}

/// Pieces in a hand as it is heard again.
static TOUCHED: [Case<'static>; 4] = [
    // a piece of the side that moved last is in a hand as it is heard again, and is set down there
    Case {
        front: Queen,
        steps: &[
            (5_000, Away(1_000)),
            (6_000, Picture("k7/8/8/8/8/8/8/7K")),
            (6_300, Picture("k7/8/8/8/8/5q2/8/7K")),
            (6_300, Agrees),
        ],
        doubts: &[(1, AfterLast, AfterGap)],
    },
    // a piece of the other side is: its player thinks
    Case {
        front: Queen,
        steps: &[
            (5_000, Away(1_000)),
            (6_000, Picture("k7/8/8/8/8/5q2/8/8")),
            (6_300, Picture("k7/8/8/8/8/5q2/8/7K")),
            (6_300, Agrees),
        ],
        doubts: &[],
    },
    // a piece is in a hand as it is heard again: it doesn't stand as before
    Case {
        front: Queen,
        steps: &[
            (5_000, Away(60_000)),
            (66_000, Picture("k7/8/8/8/8/8/8/7K")),
            (66_100, Stands),
            (68_000, Picture("k7/8/8/8/8/8/4q3/7K")),
            (68_000, Corrects),
        ],
        doubts: &[(1, AtLast, AfterGap)],
    },
    // both sides stand elsewhere as the board is heard again, and the next plies lead back
    Case {
        front: Queen,
        steps: &[
            (5_000, Away(2_000)),
            (8_000, Picture("k7/8/8/8/6q1/8/8/6K1")),
            (8_050, Picture("k7/8/8/8/6q1/8/8/8")),
            (8_300, Picture("k7/8/8/8/6q1/8/8/7K")),
            (9_000, Picture("k7/8/8/8/8/8/8/7K")),
            (9_400, Picture("k7/8/8/8/8/5q2/8/7K")),
            (9_400, Agrees),
        ],
        doubts: &[(1, AfterLast, BothElsewhere)],
    },
];

fn touched() -> bool {
    are_right(&TOUCHED)
}

/// Two kings repeat a position, ten seconds a ply.
static REPEATED: [(u64, Step<'static>); 15] = [
    (0, Position("k7/8/8/8/8/8/8/K7", false)),
    (0, Picture("k7/8/8/8/8/8/8/K7")),
    (0, Agrees),
    (10_000, Picture("k7/8/8/8/8/8/8/1K6")),
    (10_000, Moves),
    (10_000, Position("k7/8/8/8/8/8/8/1K6", true)),
    (20_000, Picture("1k6/8/8/8/8/8/8/1K6")),
    (20_000, Moves),
    (20_000, Position("1k6/8/8/8/8/8/8/1K6", false)),
    (30_000, Picture("1k6/8/8/8/8/8/8/K7")),
    (30_000, Moves),
    (30_000, Position("1k6/8/8/8/8/8/8/K7", true)),
    (40_000, Picture("k7/8/8/8/8/8/8/K7")),
    (40_000, Repeats),
    (40_000, Position("k7/8/8/8/8/8/8/K7", false)),
];

/// The recorder was away for a minute.
static RESTARTS: [Case<'static>; 3] = [
    // the board agrees as it is heard again
    Case {
        front: Kings,
        steps: &[
            (100_000, Restart(60_000)),
            (101_000, Stands),
            (102_000, Picture("k7/8/8/8/8/8/8/1K6")),
            (102_000, Moves),
        ],
        doubts: &[(4, AfterLast, AfterGap)],
    },
    // a king is in a hand
    Case {
        front: Kings,
        steps: &[
            (41_000, Picture("k7/8/8/8/8/8/8/8")),
            (100_000, Restart(60_000)),
            (101_000, Stands),
            (102_000, Picture("k7/8/8/8/8/8/8/1K6")),
            (102_000, Moves),
        ],
        doubts: &[(5, AtLast, AfterGap)],
    },
    // it isn't known what the board had shown
    Case {
        front: Kings,
        steps: &[
            (100_000, Restart(60_000)),
            (102_000, Picture("k7/8/8/8/8/8/8/1K6")),
            (102_000, Moves),
        ],
        doubts: &[(5, AtLast, AfterGap)],
    },
];

fn restarted() -> bool {
    are_right(&RESTARTS)
}

/// Of the last eight plies three took 90 s, and five 10 s.
static PLIES: [(u64, Step<'static>); 12] = [
    (0, Position("k7/8/8/8/8/8/8/K7", false)),
    (3_000, Moves),
    (6_000, Moves),
    (9_000, Moves),
    (99_000, Moves),
    (189_000, Moves),
    (279_000, Moves),
    (289_000, Moves),
    (299_000, Moves),
    (309_000, Moves),
    (319_000, Moves),
    (329_000, Moves),
];

/// A gap hides a move if it is as long as a ply, or five seconds.
static PACES: [Case<'static>; 3] = [
    // a gap of 4.9 s at 10 s a ply
    Case {
        front: Paced,
        steps: &[(339_000, Away(4_900)), (339_000, Moves)],
        doubts: &[],
    },
    // a gap of 5 s
    Case {
        front: Paced,
        steps: &[(339_000, Away(5_000)), (339_000, Moves)],
        doubts: &[(12, AtLast, AfterGap)],
    },
    // two of 2.5 s
    Case {
        front: Paced,
        steps: &[
            (339_000, Away(2_500)),
            (339_000, Away(2_500)),
            (339_000, Moves),
        ],
        doubts: &[(12, AtLast, AfterGap)],
    },
];

fn paced() -> bool {
    are_right(&PACES)
}

/// Both sides move a knight, ten seconds a ply, and press the clock.
static PRESSED: [(u64, Step<'static>); 7] = [
    (0, Runs),
    (10_000, Moves),
    (10_000, Goes(62, 45)),
    (10_500, Presses),
    (20_000, Moves),
    (20_000, Goes(6, 21)),
    (20_500, Presses),
];

/// They do so without a clock.
static UNPRESSED: [(u64, Step<'static>); 4] = [
    (10_000, Moves),
    (10_000, Goes(62, 45)),
    (20_000, Moves),
    (20_000, Goes(6, 21)),
];

/// Knights go back.
static TAKEN_BACK: [Case<'static>; 15] = [
    // both, and nobody presses the clock
    Case {
        front: Clocked,
        steps: &[
            (23_000, Moves),
            (23_000, Goes(45, 62)),
            (25_000, Moves),
            (25_000, Goes(21, 6)),
            (26_000, Runs),
        ],
        doubts: &[(4, AtLast, TakenBack)],
    },
    // the next picture comes before the clock says anything
    Case {
        front: Clocked,
        steps: &[
            (23_000, Moves),
            (23_000, Goes(45, 62)),
            (25_000, Moves),
            (25_000, Goes(21, 6)),
            (25_700, Picture("8/8/8/8/8/8/8/8")),
            (26_000, Runs),
        ],
        doubts: &[(4, AtLast, TakenBack)],
    },
    // it says that it was pressed
    Case {
        front: Clocked,
        steps: &[
            (23_000, Moves),
            (23_000, Goes(45, 62)),
            (25_000, Moves),
            (25_000, Goes(21, 6)),
            (26_000, Presses),
            (26_000, Runs),
        ],
        doubts: &[],
    },
    // nobody had stopped to think before
    Case {
        front: Clocked,
        steps: &[
            (22_000, Moves),
            (22_000, Goes(45, 62)),
            (25_000, Moves),
            (25_000, Goes(21, 6)),
            (26_000, Runs),
        ],
        doubts: &[],
    },
    // the clock is pressed between them: both are moves
    Case {
        front: Clocked,
        steps: &[
            (23_000, Moves),
            (23_000, Goes(45, 62)),
            (24_000, Presses),
            (25_000, Moves),
            (25_000, Goes(21, 6)),
            (26_000, Runs),
        ],
        doubts: &[],
    },
    // it is pressed half a second before White's is seen on g1: that is White's press
    Case {
        front: Clocked,
        steps: &[
            (22_500, Presses),
            (23_000, Moves),
            (23_000, Goes(45, 62)),
            (25_000, Moves),
            (25_000, Goes(21, 6)),
            (26_000, Runs),
        ],
        doubts: &[],
    },
    // a bit earlier: it was Black's, for the ply before
    Case {
        front: Clocked,
        steps: &[
            (22_499, Presses),
            (23_000, Moves),
            (23_000, Goes(45, 62)),
            (25_000, Moves),
            (25_000, Goes(21, 6)),
            (26_000, Runs),
        ],
        doubts: &[(4, AtLast, TakenBack)],
    },
    // two presses in one second: White's time went down, and now Black's does
    Case {
        front: Clocked,
        steps: &[
            (22_000, Counts(false)),
            (23_000, Moves),
            (23_000, Goes(45, 62)),
            (24_000, Counts(true)),
            (25_000, Moves),
            (25_000, Goes(21, 6)),
            (26_000, Runs),
        ],
        doubts: &[],
    },
    // the recorder is away between them, and the clock runs on
    Case {
        front: Clocked,
        steps: &[
            (22_000, Counts(false)),
            (23_000, Moves),
            (23_000, Goes(45, 62)),
            (23_500, Restart(400)),
            (24_000, Counts(false)),
            (24_000, Runs),
            (25_000, Moves),
            (25_000, Goes(21, 6)),
            (26_000, Runs),
        ],
        doubts: &[(4, AtLast, TakenBack)],
    },
    // meanwhile it was pressed
    Case {
        front: Clocked,
        steps: &[
            (23_000, Moves),
            (23_000, Goes(45, 62)),
            (23_500, Restart(400)),
            (24_000, Presses),
            (24_000, Runs),
            (25_000, Moves),
            (25_000, Goes(21, 6)),
            (26_000, Runs),
        ],
        doubts: &[],
    },
    // the clock hasn't been heard again: it may have been
    Case {
        front: Clocked,
        steps: &[
            (23_000, Moves),
            (23_000, Goes(45, 62)),
            (23_500, Restart(400)),
            (25_000, Moves),
            (25_000, Goes(21, 6)),
            (26_000, Runs),
        ],
        doubts: &[],
    },
    // Black's goes on to e4, where no line leads from g8
    Case {
        front: Clocked,
        steps: &[
            (23_000, Moves),
            (23_000, Goes(45, 62)),
            (25_000, Moves),
            (25_000, Goes(21, 36)),
            (26_000, Runs),
        ],
        doubts: &[],
    },
    // without a clock two seconds later, drawn over e8
    Case {
        front: Unclocked,
        steps: &[
            (30_000, Moves),
            (30_000, Goes(45, 62)),
            (32_000, Moves),
            (32_000, Goes(21, 4)),
            (32_100, Corrects),
            (32_100, GoesInstead(21, 6)),
        ],
        doubts: &[(4, AtLast, TakenBack)],
    },
    // a bit later: it was thought about
    Case {
        front: Unclocked,
        steps: &[
            (30_000, Moves),
            (30_000, Goes(45, 62)),
            (32_001, Moves),
            (32_001, Goes(21, 6)),
        ],
        doubts: &[],
    },
    // players who need six seconds for two of three plies
    Case {
        front: Unclocked,
        steps: &[
            (26_000, Moves),
            (26_000, Goes(45, 62)),
            (28_000, Moves),
            (28_000, Goes(21, 6)),
        ],
        doubts: &[],
    },
];

fn taken_back() -> bool {
    are_right(&TAKEN_BACK)
}

/// Bishops go to e2 and e7, and their players press.
static BISHOPS: [(u64, Step<'static>); 7] = [
    (0, Runs),
    (10_000, Moves),
    (10_000, Goes(61, 52)),
    (10_500, Presses),
    (20_000, Moves),
    (20_000, Goes(5, 12)),
    (20_500, Presses),
];

/// Four knights go out, and their players press.
static KNIGHTS: [(u64, Step<'static>); 13] = [
    (0, Runs),
    (10_000, Moves),
    (10_000, Goes(62, 45)),
    (10_500, Presses),
    (20_000, Moves),
    (20_000, Goes(6, 21)),
    (20_500, Presses),
    (30_000, Moves),
    (30_000, Goes(57, 42)),
    (30_500, Presses),
    (40_000, Moves),
    (40_000, Goes(1, 18)),
    (40_500, Presses),
];

/// Pieces are put elsewhere, or all go back.
static SILENT: [Case<'static>; 6] = [
    // to b5 and b4, as they could have gone from f1 and f8
    Case {
        front: Bishops,
        steps: &[
            (25_000, Moves),
            (25_000, Goes(52, 25)),
            (28_000, Moves),
            (28_000, Goes(12, 33)),
            (29_000, Runs),
        ],
        doubts: &[(4, AtLast, MovedOn)],
    },
    // Black's to g5: no line leads there from f8
    Case {
        front: Bishops,
        steps: &[
            (25_000, Moves),
            (25_000, Goes(52, 25)),
            (28_000, Moves),
            (28_000, Goes(12, 30)),
            (29_000, Runs),
        ],
        doubts: &[],
    },
    // White's goes back to f1, and Black's on: mostly they are played
    Case {
        front: Bishops,
        steps: &[
            (25_000, Moves),
            (25_000, Goes(52, 61)),
            (28_000, Moves),
            (28_000, Goes(12, 33)),
            (29_000, Runs),
        ],
        doubts: &[],
    },
    // White has pressed
    Case {
        front: Bishops,
        steps: &[
            (25_000, Moves),
            (25_000, Goes(52, 25)),
            (26_000, Presses),
            (28_000, Moves),
            (28_000, Goes(12, 33)),
            (29_000, Runs),
        ],
        doubts: &[],
    },
    // all knights go back, five seconds each
    Case {
        front: Knights,
        steps: &[
            (45_000, Moves),
            (45_000, Goes(45, 62)),
            (50_000, Moves),
            (50_000, Goes(21, 6)),
            (55_000, Moves),
            (55_000, Goes(42, 57)),
            (60_000, Repeats),
            (60_000, Goes(18, 1)),
            (61_000, Runs),
        ],
        doubts: &[(8, AtLast, Returned)],
    },
    // White has pressed for the third one
    Case {
        front: Knights,
        steps: &[
            (45_000, Moves),
            (45_000, Goes(45, 62)),
            (50_000, Moves),
            (50_000, Goes(21, 6)),
            (55_000, Moves),
            (55_000, Goes(42, 57)),
            (56_000, Presses),
            (60_000, Repeats),
            (60_000, Goes(18, 1)),
            (61_000, Runs),
        ],
        doubts: &[],
    },
];

fn silent() -> bool {
    are_right(&SILENT)
}

/// Where plies go that nobody takes back.
static WAYS: [(u8, u8); 8] = [
    (0, 40),
    (9, 39),
    (2, 38),
    (11, 37),
    (4, 36),
    (13, 35),
    (6, 34),
    (15, 33),
];

/// After how many of six plies the clock is pressed, if it is; how long each takes; and whether the sixth is doubted.
static LEFT: [(Option<usize>, u64, bool); 5] = [
    (None, 5_000, true),
    (None, 1_001, true),
    (None, 1_000, false),
    (Some(1), 5_000, false),
    (Some(5), 5_000, false),
];

fn is_left(pressed: Option<usize>, takes: u64, expected: bool) -> bool {
    let mut game = Game::new();
    game.play(&PRESSED, &[], 0);
    let mut now = 30_000u64;
    for ply in 0..6usize {
        let (from, to) = WAYS[ply];
        let last: &[Expected] = if expected && ply == 5 {
            &[(8, AtLast, Unpressed)]
        } else {
            &[]
        };
        if pressed == Some(ply) {
            game.doubt(now, Presses);
        }
        if game.play(&[(now, Moves), (now, Goes(from, to))], last, 0) != Some(last.len()) {
            return false;
        }
        now = now.saturating_add(takes);
    }
    true
}

fn left() -> bool {
    for (pressed, takes, expected) in LEFT {
        if !is_left(pressed, takes, expected) {
            return false;
        }
    }
    true
}

/// Whether it is Black's time that runs before each of eight plies; how long each takes; and whether the last ply is doubted.
static LENT: [([bool; 8], u64, bool); 5] = [
    // each is thought about on its own side's
    (
        [false, true, false, true, false, true, false, true],
        10_000,
        false,
    ),
    // only the second one is
    (
        [true, true, true, false, true, false, true, false],
        10_000,
        true,
    ),
    (
        [true, true, true, false, true, false, true, false],
        2_001,
        true,
    ),
    // the clock may not have told of the presses
    (
        [true, true, true, false, true, false, true, false],
        2_000,
        false,
    ),
    // the second one and the fifth
    (
        [true, true, true, false, false, false, true, false],
        10_000,
        false,
    ),
];

fn is_lent(counting: [bool; 8], takes: u64, expected: bool) -> bool {
    let mut game = Game::new();
    let mut now = 9_000u64;
    for ply in 0..8usize {
        let (from, to) = WAYS[ply];
        let last: &[Expected] = if expected && ply == 7 {
            &[(8, AtLast, OtherTime)]
        } else {
            &[]
        };
        let steps = [
            (now, Counts(counting[ply])),
            (now, Moves),
            (now, Goes(from, to)),
        ];
        if game.play(&steps, last, 0) != Some(last.len()) {
            return false;
        }
        now = now.saturating_add(takes);
    }
    true
}

fn lent() -> bool {
    for (counting, takes, expected) in LENT {
        if !is_lent(counting, takes, expected) {
            return false;
        }
    }
    true
}

/// Milliseconds from a move to its correction, and whether that is late.
static CORRECTIONS: [(u64, bool); 4] = [
    (0, false),
    (10_000, false),
    (10_100, true),
    (600_000, true),
];

fn is_late(millis: u64) -> bool {
    let steps = [(1_000, Moves), (millis.saturating_add(1_000), Corrects)];
    let mut game = Game::new();
    game.play(&steps, &[(1, AtLast, Late)], 0) == Some(1)
}

/// Milliseconds of a gap; of a ply, if they are known; whether a ply may be hidden in the gap.
static GAPS: [(u64, Option<u64>, bool); 6] = [
    (3_000, None, true),
    (2_400, None, false),
    (1_000, Some(200), true),
    (900, Some(200), false),
    (2_400, Some(60_000), false),
    (5_000, Some(60_000), true),
];

/// A game of nine plies, each of this time; or of one.
fn game_of(ply: Option<u64>, last: Step<'_>) -> Game {
    let mut game = Game::new();
    let mut now = 0u64;
    if let Some(ply) = ply {
        for _ in 0..8u8 {
            game.doubt(now, Moves);
            now = now.saturating_add(ply);
        }
    }
    game.doubt(now, last);
    game
}

/// Whether this is doubted after a gap.
fn hides(mut game: Game, gap: Step<'_>, step: Step<'_>) -> bool {
    game.doubt(0, gap);
    game.doubt(0, step).is_some()
}

/// Whether a gap hides a move, a gap twice as long leads back to the position, and one as long if it was repeated, also after
/// a restart, which alone hides none.
fn is_gap(lasted: u64, ply: Option<u64>, expected: bool) -> bool {
    let twice = lasted.saturating_mul(2);
    first_false(&[
        hides(game_of(ply, Moves), Away(lasted), Moves) == expected,
        hides(game_of(ply, Moves), Away(twice), Agrees) == expected,
        hides(game_of(ply, Repeats), Restart(lasted), Agrees) == expected,
        !hides(game_of(ply, Moves), Restart(lasted), Moves),
    ])
    .is_none()
}

fn are_limits() -> bool {
    for (millis, expected) in CORRECTIONS {
        if is_late(millis) != expected {
            return false;
        }
    }
    for (gap, ply, expected) in GAPS {
        if !is_gap(gap, ply, expected) {
            return false;
        }
    }
    true
}

/// Pictures after this position, in which White is to move, and to which squares pieces of White's and of Black's may have gone.
static FROM: &str = "3qk3/5p2/8/8/8/8/6P1/RNB1K2R";

static GONE: [(&str, u64, u64); 10] = [
    // each piece where it belongs
    ("3qk3/5p2/8/8/8/8/6P1/RNB1K2R", 0, 0),
    // the king goes to d1, the queen to a5
    ("4k3/5p2/8/q7/8/8/6P1/RNBK3R", 1 << 59, 1 << 24),
    // the king to g1, the queen to a4: there's no such way
    ("4k3/5p2/8/8/q7/8/6P1/RNB3KR", 0, 0),
    // knight and bishop to c3 and e3
    ("3qk3/5p2/8/8/8/2N1B3/6P1/R3K2R", 1 << 42 | 1 << 44, 0),
    // to b3 and e2
    ("3qk3/5p2/8/8/8/1N6/4B1P1/R3K2R", 0, 0),
    // a pawn of each side goes on
    ("3qk3/8/5p2/8/6P1/8/8/RNB1K2R", 0, 0),
    // a rook to b2, which neither rook reaches
    ("3qk3/5p2/8/8/8/8/1R4P1/1NB1K2R", 0, 0),
    // to h2, beside h1
    ("3qk3/5p2/8/8/8/8/6PR/RNB1K3", 1 << 55, 0),
    // over a knight and a bishop, which may have been away meanwhile
    ("3qk3/5p2/8/8/8/8/6P1/1NBRK2R", 1 << 59, 0),
    // a third rook on a4: no rook is missing
    ("3qk3/5p2/8/8/R7/8/6P1/RNB1K2R", 0, 0),
];

/// Whether just these pieces have gone, from this position.
fn have_gone(position: &[u8; 64], picture: &str, own: u64, others: u64) -> bool {
    let played = Played {
        black: false,
        position,
        before: position,
        earlier: position,
    };
    let shown = seen(&played, &codes_of(picture));
    shown.own == own && shown.others == others
}

fn are_elsewhere() -> bool {
    let position = codes_of(FROM);
    for (picture, own, others) in GONE {
        if !have_gone(&position, picture, own, others) {
            return false;
        }
    }
    true
}

#[test]
fn news_is_doubted(rt: HostRuntime) {
    let holds = [
        played_on(),
        corrected(),
        hidden(),
        straightened(),
        drawn(),
        going(),
        away_for_long(),
        stray(),
        touched(),
        restarted(),
        paced(),
        taken_back(),
        silent(),
        left(),
        lent(),
        are_limits(),
        are_elsewhere(),
    ];
    expect_none(&rt, first_false(&holds));
}
