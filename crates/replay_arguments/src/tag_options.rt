//! The options that give the values of tags.
ghost use Rattle.std.specs.Prelude.{◌≡◌};
ghost use Rattle.replay_arguments.specs.TagOptions.{option_of};

use chess_game::Tag;

/// The name of the option that gives the tag's value.
pub fn option_name(tag: Tag) -> &'static str
    ensures { result.now ≡ option_of tag }
{
    match tag {
        Tag::Event => "event",
        Tag::Site => "site",
        Tag::Date => "date",
        Tag::Round => "round",
        Tag::White => "white",
        Tag::Black => "black",
    }
}

/// What the help says of the option.
pub fn option_help(tag: Tag) -> &'static str {
    match tag {
        Tag::Event => "The tag Event",
        Tag::Site => "The tag Site",
        Tag::Date => "The tag Date, as 2024.05.31 or 2024.??.??",
        Tag::Round => "The tag Round",
        Tag::White => "The tag White",
        Tag::Black => "The tag Black",
    }
}
