//! Writing the export text of a game.
ghost use Rattle.std.specs.Prelude.{◌≡◌, ◌↔◌, ◌≤◌, ℕ, List, ◌++◌, ◌∷◌, [], true, false, length, IsTrue, IfErr, OnOk, OnErr};
ghost use Rattle.std.specs.Io.KnownBytes.{Appends};
ghost use Rattle.watched_streams.specs.Watch.{inner_of, has_failed};
ghost use Rattle.chess_rules.specs.Initial.{initial};
ghost use Rattle.chess_rules.specs.Legal.{Legal};
ghost use Rattle.chess_rules.specs.After.{is_white};
ghost use Rattle.settle_core.specs.Settling.{Line};
ghost use Rattle.settle_core.specs.Folding.{moves_of};
ghost use Rattle.pgn_book.specs.Movetext.{ShownMove, ArePliesShown, IsPlyShown, clock_text, clock_tokens, number_token, number_tokens, move_tokens, tokens_of, result_text, game_tokens};
ghost use Rattle.pgn_book.specs.Pgn.{Pgn, IsSetUp, escape, escaped, roster, tag_line, tag_lines};
ghost use Rattle.chess_game.specs.TagNames.{all_tags};
ghost use Rattle.pgn_book.specs.Written.{AppendsFront};
ghost use Rattle.pgn_book.specs.Inside.Flow.{Adds, Writes, flow};

use crate::appending::add;
use crate::parts::same_parts;
use crate::place::Place;
use arrayvec::ArrayString;
use chess_clock::Hms;
use chess_game::{Game, Tag, Tags};
use chess_rules::{Position, Side};
use chess_text::laws::texts_are_plain;
use chess_text::{write_fen, write_san};
use itoa::Buffer;
use settle_core::{Outcome, Ply};
use std::io::Write;
use watched_streams::{Watch, WriteFault};

/// The most characters in a line of the movetext (PGN standard, export format).
const LINE: usize = 79;

/// Writes a token: on the line where it has room, else on a new one.
fn put_token<W: Write>(out: &mut Watch<W>, at: &mut Place, token: &[u8])
    requires { length token.now ≤ 79 }
    ensures { Writes (W.contents (inner_of out.old)) (W.contents (inner_of out.new)) (has_failed out.old)
        (has_failed out.new) at.old at.new (token.now ∷ []) }
{
    let column = at.column;
    if column == 0 {
        add(out, at, token);
        at.column = token.len();
    } else if column + 1 + token.len() <= LINE {
        add(out, at, b" ");
        add(out, at, token);
        at.column = column + 1 + token.len();
    } else {
        add(out, at, b"\n");
        add(out, at, token);
        at.column = token.len();
    }
}

fn clock_bytes(time: Hms) -> [u8; 16]
    ensures { result ≡ clock_text time }
{
    [
        b'{',
        b'[',
        b'%',
        b'c',
        b'l',
        b'k',
        b' ',
        b'0' + time.hours,
        b':',
        b'0' + time.minutes / 10,
        b'0' + time.minutes % 10,
        b':',
        b'0' + time.seconds / 10,
        b'0' + time.seconds % 10,
        b']',
        b'}',
    ]
}

/// The termination marker of a result.
pub fn result_str(outcome: Option<Outcome>) -> &'static str
    ensures text { result.now ≡ result_text outcome }
    ensures short { length result.now ≤ 7 }
{
    match outcome {
        Some(Outcome::WhiteWins) => "1-0",
        Some(Outcome::BlackWins) => "0-1",
        Some(Outcome::Drawn) => "1/2-1/2",
        None => "*",
    }
}

fn is_white(side: Side) -> bool
    ensures { result ≡ is_white side }
{
    match side {
        Side::White => true,
        Side::Black => false,
    }
}

fn number_str(side: Side, number: u16) -> ArrayString<48>
    ensures text { result.bytes ≡ number_token side number }
    ensures short { length result.bytes ≤ 48 }
{
    let mut buffer = Buffer::new();
    let mut token = ArrayString::new();
    token.push_str(buffer.format(number));
    match side {
        Side::White => token.push_str("."),
        Side::Black => token.push_str("..."),
    }
    token
}

fn put_number<W: Write>(out: &mut Watch<W>, at: &mut Place, side: Side, number: u16, wanted: bool)
    ensures { Writes (W.contents (inner_of out.old)) (W.contents (inner_of out.new)) (has_failed out.old)
        (has_failed out.new) at.old at.new (number_tokens side number wanted) }
{
    if wanted || is_white(side) {
        let token = number_str(side, number);
        put_token(out, at, token.as_str().as_bytes());
    }
}

fn put_clock<W: Write>(out: &mut Watch<W>, at: &mut Place, clock: Option<Hms>)
    ensures { Writes (W.contents (inner_of out.old)) (W.contents (inner_of out.new)) (has_failed out.old)
        (has_failed out.new) at.old at.new (clock_tokens clock) }
{
    if let Some(time) = clock {
        let token = clock_bytes(time);
        put_token(out, at, &token);
    }
}

/// Writes the move of a ply.
fn put_ply<W: Write>(
    out: &mut Watch<W>,
    at: &mut Place,
    position: &Position,
    ply: &Ply,
    wanted: bool,
)
    requires { Legal position.now ply.now.mv }
    ensures { (shown : ShownMove) × IsPlyShown position.now ply.now shown
        × Writes (W.contents (inner_of out.old)) (W.contents (inner_of out.new)) (has_failed out.old) (has_failed out.new) at.old at.new
        (move_tokens wanted shown) }
{
    let parts = position.parts();
    put_number(out, at, parts.side, parts.fullmove, wanted);
    let san = write_san(position, ply.mv);
    put_token(out, at, san.as_str().as_bytes());
    put_clock(out, at, ply.clock);
}

/// Writes the moves of a line.
fn put_plies<W: Write>(out: &mut Watch<W>, at: &mut Place, start: &Position, plies: &[Ply])
    requires { Line start.now (moves_of plies.now) }
    ensures { (moves : List ShownMove) × ArePliesShown start.now plies.now moves
        × Writes (W.contents (inner_of out.old)) (W.contents (inner_of out.new)) (has_failed out.old) (has_failed out.new) at.old at.new
        (tokens_of true moves) }
{
    let mut position = *start;
    let mut wanted = true;
    for ply in plies {
        put_ply(out, at, &position, ply, wanted);
        position = position.play(ply.mv);
        wanted = ply.clock.is_some();
    }
}

fn put_escaped<W: Write>(out: &mut Watch<W>, at: &mut Place, byte: u8)
    ensures adds { Adds (W.contents (inner_of out.old)) (W.contents (inner_of out.new)) (has_failed out.old)
        (has_failed out.new) at.old at.new (escape byte) }
    ensures column { at.new.column ≡ at.old.column }
{
    if byte == b'"' || byte == b'\\' {
        add(out, at, &[b'\\', byte]);
    } else {
        add(out, at, &[byte]);
    }
}

fn put_value<W: Write>(out: &mut Watch<W>, at: &mut Place, value: &[u8])
    ensures adds { Adds (W.contents (inner_of out.old)) (W.contents (inner_of out.new)) (has_failed out.old)
        (has_failed out.new) at.old at.new (escaped value.now) }
    ensures column { at.new.column ≡ at.old.column }
{
    for b in value {
        put_escaped(out, at, *b);
    }
}

fn put_tag<W: Write>(out: &mut Watch<W>, at: &mut Place, name: &str, value: &str)
    ensures adds { Adds (W.contents (inner_of out.old)) (W.contents (inner_of out.new)) (has_failed out.old)
        (has_failed out.new) at.old at.new (tag_line name.now value.now) }
    ensures column { at.new.column ≡ at.old.column }
{
    add(out, at, b"[");
    add(out, at, name.as_bytes());
    add(out, at, b" \"");
    put_value(out, at, value.as_bytes());
    add(out, at, b"\"]\n");
}

/// Writes the lines of the tags that a user sets.
fn put_tags<W: Write>(out: &mut Watch<W>, at: &mut Place, tags: &Tags)
    ensures adds { Adds (W.contents (inner_of out.old)) (W.contents (inner_of out.new)) (has_failed out.old)
        (has_failed out.new) at.old at.new
        (tag_lines tags.now all_tags) }
    ensures column { at.new.column ≡ at.old.column }
{
    for tag in Tag::ALL {
        put_tag(out, at, tag.name(), tags.get(tag));
    }
}

fn put_roster<W: Write>(out: &mut Watch<W>, at: &mut Place, game: &Game)
    ensures adds { Adds (W.contents (inner_of out.old)) (W.contents (inner_of out.new)) (has_failed out.old)
        (has_failed out.new) at.old at.new
        (roster game.now.tags (result_text game.now.result)) }
    ensures column { at.new.column ≡ at.old.column }
{
    put_tags(out, at, game.tags());
    put_tag(out, at, "Result", result_str(game.result()));
}

fn is_initial(start: &Position) -> bool
    ensures { IsTrue result ↔ (start.now ≡ initial) }
{
    same_parts(start.parts(), Position::initial().parts())
}

/// Writes FEN and SetUp where the start isn't the initial position.
fn put_set_up<W: Write>(out: &mut Watch<W>, at: &mut Place, start: &Position)
    ensures adds { (lines : List ℕ) × IsSetUp start.now lines
        × Adds (W.contents (inner_of out.old)) (W.contents (inner_of out.new)) (has_failed out.old)
        (has_failed out.new) at.old at.new lines }
    ensures column { at.new.column ≡ at.old.column }
{
    if is_initial(start) {
        return;
    }
    let fen = write_fen(start);
    put_tag(out, at, "FEN", fen.as_str());
    put_tag(out, at, "SetUp", "1");
}

fn put_movetext<W: Write>(out: &mut Watch<W>, at: &mut Place, game: &Game)
    requires { at.old.column ≡ 0 }
    ensures { (moves : List ShownMove) × ArePliesShown game.now.start game.now.plies moves
        × Adds (W.contents (inner_of out.old)) (W.contents (inner_of out.new)) (has_failed out.old) (has_failed out.new) at.old at.new
        (flow 0 (game_tokens moves game.now.result) ++ 10 ∷ 10 ∷ []) }
{
    put_plies(out, at, game.start(), game.plies());
    put_token(out, at, result_str(game.result()).as_bytes());
    add(out, at, b"\n\n");
}

fn put_game<W: Write>(out: &mut Watch<W>, at: &mut Place, game: &Game)
    requires { at.old.column ≡ 0 }
    ensures { (text : List ℕ) × Pgn game.now text
        × Adds (W.contents (inner_of out.old)) (W.contents (inner_of out.new)) (has_failed out.old)
        (has_failed out.new) at.old at.new text }
{
    // For its clause: a move has 2 to 7 printable characters, and no space.
    texts_are_plain();
    put_roster(out, at, game);
    put_set_up(out, at, game.start());
    add(out, at, b"\n");
    put_movetext(out, at, game);
}

/// Writes the export text of a game (PGN standard, sections 3.2 and 8). It doesn't flush. The stream must not have
/// failed before.
///
/// # Errors
///
/// Where a write fails or takes no byte; the bytes that the error counts were written, and no other.
pub fn write_pgn<W: Write>(game: &Game, out: &mut Watch<W>) -> Result<(), WriteFault>
    requires { has_failed out.old ≡ false }
    ensures ok { OnOk result ((text : List ℕ) × Pgn game.now text
        × Appends (W.contents (inner_of out.old)) (W.contents (inner_of out.new)) text) }
    ensures working { OnOk result (has_failed out.new ≡ false) }

    // The first bytes of the text were written and no other, and the stream has failed.
    ensures fault { IfErr result (λ fault. (text : List ℕ) × Pgn game.now text
        × AppendsFront (W.contents (inner_of out.old)) (W.contents (inner_of out.new)) text fault.written) }
    ensures failed { OnErr result (has_failed out.new ≡ true) }
{
    let mut at = Place {
        column: 0,
        written: 0,
    };
    put_game(out, &mut at, game);
    if out.failed() {
        return Err(WriteFault {
            written: at.written,
        });
    }
    Ok(())
}
