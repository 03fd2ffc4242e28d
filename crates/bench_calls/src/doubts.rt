//! What is heard of boards, an event a line on standard input, and what is doubted in it. The lines are those of bench/pressed.py
//! and bench/elsewhere.py: `5000 move`, `5000 plays 52 36 0`. After `shows` there are the letters of 64 squares, with a point for
//! an empty one; after `position` too, and 1 where Black is to move. A line `game` begins another game.

use board_doubts::{Doubts, Event, Gap, Heard, Played, Ply, StoppedClock, Why, seen};
use std::io;

/// What has heard of a game.
#[derive(Clone, Copy)]
struct Game {
    doubts: Doubts,
    clock: StoppedClock,
    positions: Positions,
}

/// Its last positions.
#[derive(Clone, Copy)]
struct Positions {
    position: [u8; 64],
    before: [u8; 64],
    earlier: [u8; 64],
    black: bool,
    /// It has one.
    has_begun: bool,
    /// That after a move is still to come.
    is_new: bool,
}

impl Game {
    fn new() -> Game {
        Game {
            doubts: Doubts::new(),
            clock: StoppedClock::new(),
            positions: Positions {
                position: [0; 64],
                before: [0; 64],
                earlier: [0; 64],
                black: false,
                has_begun: false,
                is_new: false,
            },
        }
    }
}

impl Positions {
    fn reach(&mut self, position: [u8; 64], black: bool) {
        if !self.has_begun {
            self.before = position;
            self.earlier = position;
        } else if self.is_new {
            self.earlier = self.before;
            self.before = self.position;
        }
        self.position = position;
        self.black = black;
        self.has_begun = true;
        self.is_new = false;
    }

    /// What a picture shows.
    fn see(&self, picture: [u8; 64]) -> Heard {
        let played = Played {
            black: self.black,
            position: &self.position,
            before: &self.before,
            earlier: &self.earlier,
        };
        Heard::Shows(seen(&played, &picture))
    }
}

/// The code of a piece's letter; 0 of another one.
fn code_of(letter: u8) -> u8 {
    match letter {
        b'P' => 1,
        b'R' => 2,
        b'N' => 3,
        b'B' => 4,
        b'K' => 5,
        b'Q' => 6,
        b'p' => 7,
        b'r' => 8,
        b'n' => 9,
        b'b' => 10,
        b'k' => 11,
        b'q' => 12,
        _ => 0,
    }
}

fn picture(letters: Option<&str>) -> Option<[u8; 64]> {
    let mut codes = [0u8; 64];
    let mut count = 0usize;
    for letter in letters?.as_bytes() {
        if count < 64 {
            codes[count] = code_of(*letter);
            count += 1;
        }
    }
    Some(codes)
}

fn gap(lasted: Option<&str>, restart: Option<&str>) -> Option<Gap> {
    Some(Gap {
        lasted: lasted?.parse::<u64>().ok()?,
        is_restart: restart.is_some(),
    })
}

fn square(text: Option<&str>) -> Option<u8> {
    text?.parse::<u8>().ok()
}

fn ply(from: Option<&str>, to: Option<&str>, side: Option<&str>) -> Option<Ply> {
    Some(Ply {
        from: square(from)?,
        to: square(to)?,
        black: side? == "1",
    })
}

/// What a word says, with up to three others.
fn heard(word: &str, one: Option<&str>, two: Option<&str>, three: Option<&str>) -> Option<Heard> {
    match word {
        "move" => Some(Heard::Moves {
            repeats: one.is_some(),
        }),
        "correction" => Some(Heard::Corrects {
            repeats: one.is_some(),
        }),
        "agrees" => Some(Heard::Agrees),
        "ends" => Some(Heard::Ends),
        "reopens" => Some(Heard::Reopens),
        "away" => Some(Heard::Away(gap(one, two)?)),
        "plays" => Some(Heard::Plays(ply(one, two, three)?)),
        "replaces" => Some(Heard::Replaces(ply(one, two, three)?)),
        "pressed" => Some(Heard::Presses),
        "clock" => Some(Heard::Clock { runs: one? == "1" }),
        "counts" => Some(Heard::Counts { black: one? == "1" }),
        _ => None,
    }
}

/// What a line says: something that is heard, or nothing but the game's position.
fn told(
    positions: &mut Positions,
    word: &str,
    one: Option<&str>,
    two: Option<&str>,
    three: Option<&str>,
) -> Option<Option<Heard>> {
    match word {
        "position" => {
            positions.reach(picture(one)?, two.is_some());
            Some(None)
        }
        "shows" => Some(Some(positions.see(picture(one)?))),
        _ => {
            positions.is_new = positions.is_new || word == "move";
            Some(Some(heard(word, one, two, three)?))
        }
    }
}

/// When something is heard in a line, and what, if anything.
fn read(positions: &mut Positions, line: &str) -> Option<(u64, Option<Heard>)> {
    let mut words = line.split_whitespace();
    let at = words.next()?.parse::<u64>().ok()?;
    let word = words.next()?;
    let one = words.next();
    let two = words.next();
    Some((at, told(positions, word, one, two, words.next())?))
}

fn reason(why: Why) -> &'static str {
    match why {
        Why::Late => "late",
        Why::Elsewhere => "elsewhere",
        Why::BothElsewhere => "both-elsewhere",
        Why::AfterGap => "after-gap",
        Why::TakenBack => "taken-back",
        Why::Unpressed => "unpressed",
        Why::OtherTime => "other-time",
        Why::MovedOn => "moved-on",
        Why::Returned => "returned",
    }
}

/// Prints what is doubted in this.
fn take(rt: &HostRuntime, game: &mut Game, event: Event) -> io::Result<()> {
    let at = event.at;
    if let Some(doubt) = game.doubts.take(event) {
        let why = reason(doubt.why);
        println!(rt; "{at} {why}")?;
    }
    if game.clock.take(event).is_some() {
        println!(rt; "{at} tried")?;
    }
    Ok(())
}

/// Prints what is doubted in what is heard. False where a line says nothing that is known.
pub fn run(rt: &HostRuntime) -> io::Result<bool> {
    let text = io::read_to_string(rt.alloc(), rt.stdin())?;
    let mut game = Game::new();
    for line in text.lines() {
        if line == "game" {
            println!(rt; "game")?;
            game = Game::new();
        } else {
            let Some((at, told)) = read(&mut game.positions, line) else {
                return Ok(false);
            };
            if let Some(what) = told {
                let event = Event {
                    at,
                    is_added: false,
                    what,
                };
                take(rt, &mut game, event)?;
            }
        }
    }
    Ok(true)
}
