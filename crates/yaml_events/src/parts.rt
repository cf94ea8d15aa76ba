//! Parts of lines, for who has no event as a whole.
ghost use Rattle.std.specs.Prelude.{◌≡◌, ◌++◌, ◌∷◌, [], None, OnOk, codes};
ghost use Rattle.std.specs.Option.{option_map};
ghost use Rattle.std.specs.Cow.{cow_str_bytes};
ghost use Rattle.std.specs.String.{string_bytes};
ghost use Rattle.yaml_text.specs.EventModel.{style_of, written_of};
ghost use Rattle.yaml_definitions.specs.model.Event.{untagged, scalar_event};
ghost use Rattle.yaml_definitions.specs.model.EventText.{event_line, anchor_part, tag_part, style_text};
ghost use Rattle.yaml_definitions.specs.grammar.Characters.{b-line-feed};

use crate::name::push_anchor;
use crate::sink::Sink;
use crate::tag::push_tag;
use crate::value::push_value;
use std::alloc::AllocError;
use std::borrow::CowStr;
use yaml_text::event::{EventTag, Style};

/// What stands before a scalar's value where it has no properties.
fn before_value(style: Style) -> &'static str
    ensures { result.now ≡ codes "=VAL" ++ style_text (style_of style) }
{
    match style {
        Style::Plain => "=VAL :",
        Style::Single => "=VAL '",
        Style::Double => "=VAL \"",
        Style::Literal => "=VAL |",
        Style::Folded => "=VAL >",
    }
}

/// Appends the line of a scalar without properties, with its LF. The only error is `OutOfMemory`. The text may then have a part
/// of the line.
#[tactic(auto, unfolding(yaml_definitions::specs::model::EventText::event_line))]
pub fn push_scalar_line(style: Style, text: &str, out: &mut String) -> Result<(), AllocError>
    ensures ok { OnOk result (string_bytes out.new ≡ string_bytes out.old ++ (event_line (scalar_event None untagged (style_of style) text.now) ++ (b-line-feed ∷ []))) }
{
    out.put(before_value(style))?;
    push_value(text, out)?;
    out.put("\n")?;
    Ok(())
}

/// Appends an anchor and a tag, if there are any. The only error is `OutOfMemory`. The text may then have a part of them.
pub fn push_properties(
    anchor: &Option<CowStr<'_>>,
    tag: &EventTag<'_>,
    out: &mut String,
) -> Result<(), AllocError>
    ensures ok { OnOk result (string_bytes out.new ≡ string_bytes out.old ++ (anchor_part (option_map cow_str_bytes anchor.now) ++ tag_part (written_of tag.now))) }
{
    push_anchor(anchor, out)?;
    push_tag(tag, out)?;
    Ok(())
}
