//! The page by way of which a text of events goes out.
ghost use Rattle.std.specs.Prelude.{◌≡◌, ◌≤◌, ◌+◌, ◌∷◌, ◌++◌, [], length, map, All, IfOk};
ghost use Rattle.std.specs.String.{string_bytes, string_capacity};
ghost use Rattle.yaml_text.specs.EventModel.{event_of};
ghost use Rattle.yaml_definitions.specs.model.EventText.{event_line};
ghost use Rattle.yaml_definitions.specs.grammar.Characters.{b-line-feed};

use crate::length::longest_line;
use std::alloc::{AllocError, Global};
use yaml_text::event::Event;

/// A page that has as many bytes or more is full.
pub const PAGE: usize = 4096;

/// An empty page with room for any one of the events' lines. The only error is `OutOfMemory`.
pub fn page_for(alloc: Global, events: &[Event<'_>]) -> Result<String, AllocError>
    ensures empty { IfOk result (λ page. string_bytes page ≡ []) }
    ensures room { IfOk result (λ page. All (λ e. 4096 + length (event_line e ++ (b-line-feed ∷ [])) ≤ string_capacity page) (map event_of events.now)) }
{
    let most = longest_line(events)?;
    let Some(room) = most.checked_add(PAGE) else {
        return Err(AllocError);
    };
    let page = String::with_capacity(alloc, room)?;
    Ok(page)
}
