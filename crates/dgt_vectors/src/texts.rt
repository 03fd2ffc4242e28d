//! Export texts of games.

use crate::bytes::Bytes;

/// The export text of a game. A test says what is its own; the rest is that of `NO_MOVE`.
#[derive(Clone, Copy)]
pub struct GameText<'a> {
    /// The values of the tags, as they are written.
    pub event: &'a str,
    pub site: &'a str,
    pub date: &'a str,
    pub round: &'a str,
    pub white: &'a str,
    pub black: &'a str,
    pub result: &'a str,
    /// The FEN of the start; empty for the initial position.
    pub fen: &'a str,
    pub movetext: &'a str,
}

/// Nothing is known, and no move is made.
pub const NO_MOVE: GameText<'static> = GameText {
    event: "?",
    site: "?",
    date: "????.??.??",
    round: "?",
    white: "?",
    black: "?",
    result: "*",
    fen: "",
    movetext: "*",
};

pub const ONE_MOVE: GameText<'static> = GameText {
    movetext: "1. e4 *",
    ..NO_MOVE
};

fn add_tag(text: &mut Bytes, name: &str, value: &str) {
    for part in ["[", name, " \"", value, "\"]\n"] {
        text.add(part.as_bytes());
    }
}

impl<'a> GameText<'a> {
    /// The whole text.
    pub fn bytes(&self) -> Bytes {
        let mut text = Bytes::new();
        add_tag(&mut text, "Event", self.event);
        add_tag(&mut text, "Site", self.site);
        add_tag(&mut text, "Date", self.date);
        add_tag(&mut text, "Round", self.round);
        add_tag(&mut text, "White", self.white);
        add_tag(&mut text, "Black", self.black);
        add_tag(&mut text, "Result", self.result);
        if !self.fen.is_empty() {
            add_tag(&mut text, "FEN", self.fen);
            add_tag(&mut text, "SetUp", "1");
        }
        for part in ["\n", self.movetext, "\n\n"] {
            text.add(part.as_bytes());
        }
        text
    }
}

/// The text with these values, the other tags being unknown. The FEN is empty for the initial position.
pub fn text_of<'a>(outcome: &'a str, fen: &'a str, movetext: &'a str) -> Bytes {
    let game = GameText {
        result: outcome,
        fen,
        movetext,
        ..NO_MOVE
    };
    game.bytes()
}

/// The text with a carriage return before each line feed.
pub fn with_returns(text: &[u8]) -> Bytes {
    let mut bytes = Bytes::new();
    for byte in text {
        if *byte == b'\n' {
            bytes.add(b"\r");
        }
        bytes.add(&[*byte]);
    }
    bytes
}
