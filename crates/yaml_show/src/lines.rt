//! What of a node is on one line in block style.
ghost use Rattle.std.specs.Prelude.{◌≡◌, ◌<◌, ◌++◌, OnOk, IfErr};
ghost use Rattle.yaml_show_scalar.specs.Scalars.{scalar_lines};
ghost use Rattle.yaml_show_scalar.specs.Tags.{tag_text};
ghost use Rattle.yaml_show_scalar.specs.Stops.{limit_of, Stops};
ghost use Rattle.yaml_show_scalar.specs.Texts.{written};
ghost use Rattle.yaml_show.specs.Layout.{space, is_root, lines_at, goes_on, head, empty_text, one_line, before_part};

use crate::flow::put_flow;
use crate::place::Place;
use yaml_show_scalar::scalar::put_scalar_lines;
use yaml_show_scalar::tag::{is_left_out, put_tag, put_tag_before};
use yaml_show_scalar::{Out, Stop};
use yaml_spell::ranked::RankedNodes;

/// Writes the space between a node and what is before it.
pub(crate) fn put_space(out: &mut Out, place: Place) -> Result<(), Stop>
    ensures ok { OnOk result (written out.new ≡ written out.old ++ space place) }
    ensures limit { limit_of out.new ≡ limit_of out.old }
    ensures err { IfErr result (Stops (limit_of out.old) (written out.old ++ space place)) }
{
    match place {
        Place::Item => Ok(()),
        Place::Root => out.put(" "),
        Place::Value => out.put(" "),
    }
}

/// Whether a node is that of a document.
fn is_root(place: Place) -> bool
    ensures { result ≡ is_root place }
{
    match place {
        Place::Root => true,
        Place::Value => false,
        Place::Item => false,
    }
}

/// The level of the further lines of a scalar.
fn lines_at(place: Place, level: usize) -> usize
    ensures { result ≡ lines_at place level }
{
    match place {
        Place::Root => 1,
        Place::Value => level,
        Place::Item => level,
    }
}

/// Writes a scalar and the end of its line.
pub(crate) fn put_scalar_node(
    out: &mut Out,
    tag: &str,
    content: &str,
    place: Place,
    level: usize,
) -> Result<(), Stop>
    ensures ok { OnOk result (written out.new ≡ written out.old ++ (space place ++ scalar_lines (lines_at place level) (is_root place) tag.now content.now)) }
    ensures limit { limit_of out.new ≡ limit_of out.old }
    ensures err { IfErr result (Stops (limit_of out.old) (written out.old ++ (space place ++ scalar_lines (lines_at place level) (is_root place) tag.now content.now))) }
{
    put_space(out, place)?;
    put_scalar_lines(out, tag, content, lines_at(place, level), is_root(place))
}

/// Writes an empty collection and the end of its line.
#[tactic(auto, unfolding(crate::specs::Layout::empty_text))]
pub(crate) fn put_empty(
    out: &mut Out,
    place: Place,
    tag: &str,
    own: &str,
    brackets: &str,
) -> Result<(), Stop>
    ensures ok { OnOk result (written out.new ≡ written out.old ++ empty_text place tag.now own.now brackets.now) }
    ensures limit { limit_of out.new ≡ limit_of out.old }
    ensures err { IfErr result (Stops (limit_of out.old) (written out.old ++ empty_text place tag.now own.now brackets.now)) }
{
    put_space(out, place)?;
    put_tag_before(out, tag, own)?;
    out.put(brackets)
}

/// Whether the first part of a collection is on the line that is begun.
pub(crate) fn goes_on(place: Place, tag: &str, own: &str) -> bool
    ensures { result ≡ goes_on place tag.now own.now }
{
    match place {
        Place::Item => is_left_out(tag, own),
        Place::Root => false,
        Place::Value => false,
    }
}

/// Writes a tag behind its space.
fn put_tag_behind(out: &mut Out, place: Place, tag: &str) -> Result<(), Stop>
    ensures ok { OnOk result (written out.new ≡ written out.old ++ (space place ++ tag_text tag.now)) }
    ensures limit { limit_of out.new ≡ limit_of out.old }
    ensures err { IfErr result (Stops (limit_of out.old) (written out.old ++ (space place ++ tag_text tag.now))) }
{
    put_space(out, place)?;
    put_tag(out, tag)
}

/// Writes what of a block collection is on the line that is begun.
#[tactic(auto, unfolding(crate::specs::Layout::head))]
pub(crate) fn put_head(out: &mut Out, place: Place, tag: &str, own: &str) -> Result<(), Stop>
    ensures ok { OnOk result (written out.new ≡ written out.old ++ head place tag.now own.now) }
    ensures limit { limit_of out.new ≡ limit_of out.old }
    ensures err { IfErr result (Stops (limit_of out.old) (written out.old ++ head place tag.now own.now)) }
{
    if goes_on(place, tag, own) {
        return Ok(());
    }
    if !is_left_out(tag, own) {
        put_tag_behind(out, place, tag)?;
    }
    out.put("\n")
}

/// Writes a node on one line, and the end of the line.
#[tactic(auto, unfolding(crate::specs::Layout::one_line))]
pub(crate) fn put_line<I: Copy, V: RankedNodes<I>>(
    view: &V,
    id: I,
    place: Place,
    out: &mut Out,
) -> Result<(), Stop>
    requires stands { V.stands view.now }
    requires within { V.number id < V.count view.now }
    ensures ok { OnOk result (written out.new ≡ written out.old ++ one_line place (V.tree view.now (V.number id))) }
    ensures limit { limit_of out.new ≡ limit_of out.old }
    ensures err { IfErr result (Stops (limit_of out.old) (written out.old ++ one_line place (V.tree view.now (V.number id)))) }
{
    put_space(out, place)?;
    put_flow(view, id, false, out)?;
    out.put("\n")
}

/// Writes what is before a part: nothing if its line is begun, else the indentation.
pub(crate) fn put_before(out: &mut Out, begun: bool, level: usize) -> Result<(), Stop>
    ensures ok { OnOk result (written out.new ≡ written out.old ++ before_part begun level) }
    ensures limit { limit_of out.new ≡ limit_of out.old }
    ensures err { IfErr result (Stops (limit_of out.old) (written out.old ++ before_part begun level)) }
{
    if begun {
        return Ok(());
    }
    out.put_times(level, "  ")
}
