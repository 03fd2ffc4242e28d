//! The subcommand `moves`.
ghost use Rattle.std.specs.Prelude.{◌≡◌, ◌≢◌, ◌≤◌, ◌⊎◌, ◌+◌, ◌++◌, ℕ, List, All, OnErr, OnOk, codes, false, true};
ghost use Rattle.std.specs.Io.KnownBytes.{Appends, Keeps};
ghost use Rattle.arrayvec.specs.ArrayVec.{array_vec_len};
ghost use Rattle.watched_streams.specs.Output.{AppendsPart};
ghost use Rattle.chess_rules.specs.declared.chess_move.Move.{Move as MoveOf};
ghost use Rattle.chess_rules.specs.declared.parts.Parts.{Parts as PartsOf};
ghost use Rattle.chess_rules.specs.Legal.{Legal};
ghost use Rattle.chess_text.specs.San.{San};
ghost use Rattle.watched_streams.specs.Watch.{IsFlushed, inner_of, has_failed};
ghost use Rattle.text_subcommands.specs.Printed.{PrintsMoves, PrintsPart, TellsMoves};
ghost use Rattle.chess_text.specs.Start.{HasNoStart, StartsAt, given};
ghost use Rattle.text_subcommands.specs.Refusals.{RefusesStart};
ghost use Rattle.text_subcommands.specs.Messages.{Says, Tells};

use crate::messages::{refused, refused_fen, refused_run};
use chess_rules::{Move, Position};
use chess_text::{start_of, write_san};
use std::alloc::Global;
use std::io::Write;
use watched_streams::{GATHERED, LONGEST, Lines, Watch, WriteFault, add, put};

/// Adds a legal move in SAN, as a line.
fn add_san(lines: &mut Lines, position: &Position, m: Move)
    requires room { array_vec_len lines.old + LONGEST ≤ GATHERED }
    requires legal { Legal position.now m }
    ensures { (san : List ℕ) × San position.now m san × (lines.new.items ≡ lines.old.items ++ san ++ codes "\n") }
{
    add(lines, write_san(position, m).as_str().as_bytes());
    add(lines, b"\n");
}

/// Writes one SAN move a line.
fn put_moves<O: Write>(
    position: &Position,
    moves: &[Move],
    out: &mut Watch<O>,
) -> Result<(), WriteFault>
    requires working { has_failed out.old ≡ false }
    requires legal { All (λ m. Legal position.now m) moves.now }
    ensures told { OnOk result ((text : List ℕ) × TellsMoves position.now moves.now text × Appends (O.contents (inner_of out.old)) (O.contents (inner_of out.new)) text) }
    ensures working { OnOk result (has_failed out.new ≡ false) }
    ensures failed { OnErr result (has_failed out.new ≡ true) }
    ensures part { OnErr result ((first more : List MoveOf) × (text : List ℕ) × (moves.now ≡ first ++ more) × TellsMoves position.now first text
        × AppendsPart (O.contents (inner_of out.old)) (O.contents (inner_of out.new)) text) }
{
    let mut lines = Lines::new();
    for m in moves {
        if lines.len() + LONGEST > GATHERED {
            put(out, lines.as_slice())?;
            lines.clear();
        }
        add_san(&mut lines, position, *m);
    }
    put(out, lines.as_slice())
}

/// Writes one SAN move a line, and returns the status: 0, or 3 where the output has failed, which is then said.
fn print_moves<O: Write, E: Write>(
    position: &Position,
    moves: &[Move],
    out: &mut Watch<O>,
    err: &mut Watch<E>,
) -> u8
    requires working { has_failed out.old ≡ false }
    requires legal { All (λ m. Legal position.now m) moves.now }
    ensures done { result ≡ 0 → ((text : List ℕ) × TellsMoves position.now moves.now text × Appends (O.contents (inner_of out.old)) (O.contents (inner_of out.new)) text)
        × (has_failed out.new ≡ false) × (err.new ≡ err.old) }
    ensures fault { result ≡ 3 → ((first more : List MoveOf) × (text : List ℕ) × (moves.now ≡ first ++ more) × TellsMoves position.now first text
        × AppendsPart (O.contents (inner_of out.old)) (O.contents (inner_of out.new)) text)
        × (has_failed out.new ≡ true) × Says (E.contents (inner_of err.old)) (E.contents (inner_of err.new)) (has_failed err.new) (codes "write fault\n") }
    ensures out_blamed { has_failed out.new ≡ true → result ≡ 3 }
    ensures known { (result ≡ 0) ⊎ (result ≡ 3) }
    ensures flushed { IsFlushed out.new }
{
    if put_moves(position, moves, out).is_err() {
        return refused(err, b"write fault\n", 3);
    }
    if out.flush().is_err() {
        return refused(err, b"write fault\n", 3);
    }
    0
}

/// Writes the legal moves of the position that has the FEN, or of the initial one, in SAN, one a line and in the order
/// of `legal_moves`, and returns the exit status: 0 where all were written, 1 where no position has the FEN, 3 where
/// `out` has failed, 4 where memory ran out; one line on `err` says why it isn't 0. `out` may not have failed before.
pub fn moves<O: Write, E: Write>(
    alloc: Global,
    fen: Option<&str>,
    out: &mut Watch<O>,
    err: &mut Watch<E>,
) -> u8
    requires working { has_failed out.old ≡ false }
    ensures prints { (start : PartsOf) → StartsAt (given fen.entry) start → result ≡ 0 → PrintsMoves start (O.contents (inner_of out.old)) (O.contents (inner_of out.new)) }
    ensures part { (start : PartsOf) → StartsAt (given fen.entry) start → result ≡ 3 → PrintsPart start (O.contents (inner_of out.old)) (O.contents (inner_of out.new)) }
    ensures accepts { (start : PartsOf) → StartsAt (given fen.entry) start → result ≢ 1 }
    ensures refuses { HasNoStart (given fen.entry) → (result ≡ 1) × Keeps (O.contents (inner_of out.old)) (O.contents (inner_of out.new)) }
    ensures tells { Tells result (RefusesStart (given fen.entry)) (E.contents (inner_of err.old)) (E.contents (inner_of err.new)) false (has_failed out.new) (has_failed err.new) }
    ensures silent { result ≡ 4 → Keeps (O.contents (inner_of out.old)) (O.contents (inner_of out.new)) }
    ensures works { result ≡ 0 → (has_failed out.new ≡ false) × (err.new ≡ err.old) }
    ensures out_blamed { has_failed out.new ≡ true → result ≡ 3 }
    ensures known { result ≤ 4 }
    ensures status { result ≢ 2 }
    ensures flushed { IsFlushed out.old → IsFlushed out.new }
{
    let position = match start_of(fen) {
        Ok(position) => position,
        Err(error) => return refused_fen(err, error),
    };
    let Ok(moves) = position.legal_moves(alloc) else {
        return refused_run(out, err, b"memory\n", 4);
    };
    print_moves(&position, moves.as_slice(), out, err)
}
