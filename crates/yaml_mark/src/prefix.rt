//! The prefixes of tags (YAML 1.2.2, 6.8.2).
ghost use Rattle.std.specs.Prelude.{bytes_eq};
ghost use Rattle.std.specs.Option.{option_map};
ghost use Rattle.std.specs.Map.{lookup};
ghost use Rattle.yaml_definitions.specs.grammar.Tags.{default_handles, prefix_of};
ghost use Rattle.yaml_mark.specs.HandlesModel.{handles_of};
ghost use Rattle.yaml_mark.specs.PrefixModel.{bytes_of};
ghost use Rattle.yaml_mark.specs.Prefixes.{StandFor};

use crate::decoded::Prefix;
use crate::handles::Handles;
use yaml_text::core_tag;

/// The decoded prefix of a handle that no directive binds.
#[tactic(auto, unfolding(yaml_definitions::specs::grammar::Tags::default_handles))]
fn default_prefix(handle: &str) -> Option<Prefix<'static>>
    ensures { StandFor (option_map bytes_of result) (lookup (bytes_eq handle.now) default_handles) }
{
    if handle == "!" {
        return Some(Prefix::Text("!"));
    }
    if handle == "!!" {
        return Some(Prefix::Text(core_tag::PREFIX));
    }
    None
}

/// The decoded prefix of a handle.
pub(crate) fn prefix_of<'a>(handles: Option<&'a Handles<'_>>, handle: &str) -> Option<Prefix<'a>>
    ensures { StandFor (option_map bytes_of result) (prefix_of (handles_of handles.entry) handle.now) }
{
    match handles {
        None => default_prefix(handle),
        Some(handles) => handles.get(handle).or(default_prefix(handle)),
    }
}
