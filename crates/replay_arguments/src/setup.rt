//! The setup of a recording.
ghost use Rattle.std.specs.Prelude.{◌≡◌, ◌⊎◌, IfErr, OnOk, MatchOption, MatchResult};
ghost use Rattle.chess_game.specs.declared.values.TagError.{TagError as ErrorOf};
ghost use Rattle.chess_game.specs.Values.{RefusesText};
ghost use Rattle.replay_arguments.specs.Inside.Given.{with_given};
ghost use Rattle.replay_arguments.specs.Setups.{ForMemory, HasValues, IsFirst, MayHave, Meets, MeetsNothing, OfFirstTag, tag_text};
ghost use Rattle.chess_text.specs.Start.{given};

use crate::arguments::RecordArguments;
use board_events::Setup;
use chess_game::{Tag, TagError, Tags};
use chess_text::{FenError, start_of};
use std::alloc::Global;

/// Why a recording can't be set up as the arguments say.
#[derive(Clone, Copy, Debug)]
pub enum Refusal {
    /// The FEN is refused.
    Fen(FenError),
    /// The value of a tag is refused, or memory for it.
    Tag { tag: Tag, error: TagError },
}

fn set(tags: &mut Tags, tag: Tag, value: Option<&str>) -> Result<(), Refusal>
    ensures set { OnOk result (tags.new ≡ with_given tag (given value.entry) tags.old) }
    ensures may { OnOk result (MayHave tag (given value.entry)) }
    ensures refused { IfErr result (λ refusal. (error : ErrorOf) × (refusal ≡ Refusal.Tag tag error)
        × MatchOption (given value.entry) ⊥ (λ value. RefusesText tag value error)) }
{
    match value {
        None => Ok(()),
        Some(value) => match tags.set(tag, value) {
            Ok(()) => Ok(()),
            Err(error) => Err(Refusal::Tag { tag, error }),
        },
    }
}

/// What is given for the tag.
fn text_of<'a>(options: &RecordArguments<'a>, tag: Tag) -> Option<&'a str>
    ensures { given result ≡ tag_text options.now tag }
{
    match tag {
        Tag::Event => options.event,
        Tag::Site => options.site,
        Tag::Date => options.date,
        Tag::Round => options.round,
        Tag::White => options.white,
        Tag::Black => options.black,
    }
}

fn tags_of(alloc: Global, options: &RecordArguments<'_>) -> Result<Tags, Refusal>
    ensures { MatchResult result (HasValues options.now) (OfFirstTag (tag_text options.now)) }
{
    let mut tags = Tags::new(alloc);
    for tag in Tag::ALL {
        match set(&mut tags, tag, text_of(options, tag)) {
            Ok(()) => {}
            Err(refusal) => return Err(refusal),
        }
    }
    Ok(tags)
}

/// The setup that the arguments say, or the first reason why there is none.
pub fn setup_of(alloc: Global, options: &RecordArguments<'_>) -> Result<Setup, Refusal>
    ensures meets { MatchResult result (Meets options.now) (λ refusal. ForMemory refusal ⊎ MeetsNothing options.now) }
    ensures first { IfErr result (IsFirst options.now) }
{
    let start = match start_of(options.board.fen) {
        Ok(start) => start,
        Err(error) => return Err(Refusal::Fen(error)),
    };
    let tags = match tags_of(alloc, options) {
        Ok(tags) => tags,
        Err(refusal) => return Err(refusal),
    };
    Ok(Setup {
        start,
        first: options.board.first,
        rotated: options.board.rotated,
        tags,
    })
}
