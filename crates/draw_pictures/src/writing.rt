//! The text of a picture's parts. Lengths are in pixels, in numbers wide enough for any lane and any row.
ghost use Rattle.std.specs.Prelude.{◌≡◌, ◌++◌, OnOk, string_bytes};
ghost use Rattle.draw_pictures.specs.Texts.{rect_bytes, open_bytes};

use std::alloc::AllocError;

/// A rectangle of two classes.
#[tactic(auto, unfolding(crate::specs::Texts::rect_bytes))]
pub fn put_rect(
    text: &mut String,
    class: &str,
    kind: &str,
    x: u128,
    y: u128,
    width: u128,
    height: u128,
) -> Result<(), AllocError>
    ensures { OnOk result (string_bytes text.new
        ≡ string_bytes text.old ++ rect_bytes class.now kind.now x y width height) }
{
    write!(text, "<rect class='{class} {kind}' x='{x}' y='{y}")?;
    write!(text, "' width='{width}' height='{height}' rx='4'/>\n")
}

/// What opens words of two classes, with more attributes.
#[tactic(auto, unfolding(crate::specs::Texts::open_bytes))]
pub fn put_open(
    text: &mut String,
    class: &str,
    kind: &str,
    x: u128,
    y: u128,
    more: &str,
) -> Result<(), AllocError>
    ensures { OnOk result (string_bytes text.new
        ≡ string_bytes text.old ++ open_bytes class.now kind.now x y more.now) }
{
    write!(text, "<text class='{class} {kind}' x='{x}' y='{y}'{more}>")
}
