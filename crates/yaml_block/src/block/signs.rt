//! What block nodes begin with.
ghost use Rattle.std.specs.Prelude.{◌≡◌, ◌≢◌, ◌≤◌, ◌⊎◌, ℕ, IfSome, IfNone, IfOk, IfErr, None};
ghost use Rattle.std.specs.Bool.{OnTrue, OnFalse};
ghost use Rattle.yaml_text.specs.Source.{text_of, place_of, IsBorder};
ghost use Rattle.yaml_text.specs.EventModel.{context_of};
ghost use Rattle.yaml_definitions.specs.grammar.Rules.{Stands};
ghost use Rattle.yaml_definitions.specs.grammar.Characters.{is_space};
ghost use Rattle.yaml_definitions.specs.grammar.Separation.{s-l-comments as s_l_comments, l-comment as l_comment};
ghost use Rattle.yaml_definitions.specs.grammar.Events.{no_props};
ghost use Rattle.yaml_scalar.specs.BlockModel.{column};
ghost use Rattle.yaml_text.specs.LeafAnswer.{IsRefusal};
ghost use Rattle.yaml_text.specs.Placed.{IsPlaced};
ghost use Rattle.law_one_reading.specs.Follows.{DashHere};
ghost use Rattle.yaml_layout.specs.PropertyDecisions.{LineGoesOn};
ghost use Rattle.yaml_layout.specs.Lines.{IsDash, IsStretch};
ghost use Rattle.yaml_sink.specs.PropertyRules.{props_of};
ghost use Rattle.yaml_block.specs.BlockRules.{least_dash};
ghost use Rattle.yaml_block.specs.OuterRules.{Follows, MayBear};
ghost use Rattle.yaml_block.specs.BlockEnds.{ColonStands, IsNoKey};
ghost use Rattle.yaml_block.specs.BlockCalls.{StartsEntryLine, IsBelow, IsSign, NoSign, IsFirstColon};

use yaml_layout::key::{Fit, key_fit};
use yaml_layout::level::Level;
use yaml_layout::line::{Line, has_content, skip_line_rest};
use yaml_layout::properties::Head;
use yaml_sink::properties::Properties;
use yaml_text::chars::Chars;
use yaml_text::class::is_ns;
use yaml_text::context::Ctx;
use yaml_text::fault::Fault;
use yaml_text::lines::skip_spaces;
use yaml_text::places::{accept, next};

/// The first dash of a sequence: the border where it stands, the one after it, and the sequence's column.
#[derive(Clone, Copy)]
pub struct Indicator {
    pub at: usize,
    pub after: usize,
    pub column: usize,
}

/// The border after a dash that begins an entry, if one stands at a border.
#[inline(never)]
pub fn dash(source: &Chars<'_>, at: usize) -> Option<usize>
    requires { IsBorder source.now at }
    ensures some { IfSome result (IsDash source.now at) }
    ensures none { IfNone result (DashHere (text_of source.now) (place_of source.now at) → ⊥) }
{
    match accept(source, at, '-') {
        None => None,
        Some(after) => match next(source, after) {
            Some((c, _)) if is_ns(c) => None,
            _ => Some(after),
        },
    }
}

/// The column from which a block sequence may stand below a node's parent (8.2.3).
pub fn sequence_column(col: usize, context: Ctx) -> usize
    ensures { result ≡ least_dash col (context_of context) }
{
    match context {
        Ctx::BlockOut => col.saturating_sub(1),
        Ctx::BlockIn => col,
        Ctx::FlowOut => col,
        Ctx::FlowIn => col,
        Ctx::BlockKey => col,
        Ctx::FlowKey => col,
    }
}

/// What begins on a line below a node's parent: nothing, a sequence, of whose first dash the border after it is told, or another
/// node.
#[derive(Clone, Copy)]
pub enum Below {
    Nothing,
    Sequence(usize),
    Node,
}

/// What begins on a line below the parent of this level's nodes. Where that is indented too little, nothing does.
#[inline(always)]
pub fn begins_below(source: &Chars<'_>, line: Line, level: &Level<'_, '_>) -> Below
    requires { StartsEntryLine source.now line }
    ensures { IsBelow source.now level.now line result }
{
    if !has_content(source, line) {
        return Below::Nothing;
    }
    match dash(source, line.first) {
        Some(after) => {
            if line.column < sequence_column(level.least, level.context) {
                return Below::Nothing;
            }
            Below::Sequence(after)
        }
        None => {
            if line.column < level.least {
                return Below::Nothing;
            }
            Below::Node
        }
    }
}

/// Which of the two block scalars.
#[derive(Clone, Copy)]
pub enum Block {
    Literal,
    Folded,
}

/// The indicator of a block scalar, and the border where it stands.
#[derive(Clone, Copy)]
pub struct Sign {
    pub at: usize,
    pub block: Block,
}

/// The border where content may begin after a node's own properties.
fn content_start(source: &Chars<'_>, head: &Head<'_>) -> Option<usize>
    requires { IsStretch source.now head.now.at head.now.end }
    ensures border { IfSome result (λ to. IsBorder source.now to) }
    ensures onward { IfSome result (λ to. head.now.at ≤ to) }
    ensures follows { IfSome result (λ to. Follows (text_of source.now) (place_of source.now head.now.at) (place_of source.now head.now.end) (place_of source.now to) (props_of head.now.own)) }
    ensures none { IfNone result ((props_of head.now.own ≢ no_props) × (Stands (text_of source.now) is_space (place_of source.now head.now.end) → ⊥)) }
    ensures furthest { IfSome result (λ to. (props_of head.now.own ≢ no_props) → Stands (text_of source.now) is_space (place_of source.now to) → ⊥) }
{
    if head.own.is_none() {
        return Some(head.at);
    }
    let (count, first) = skip_spaces(source, head.end);
    if count == 0 {
        return None;
    }
    Some(first)
}

/// What the block scalar begins with that follows a node's own properties, if one does.
pub fn block_sign(source: &Chars<'_>, head: &Head<'_>) -> Option<Sign>
    requires { IsStretch source.now head.now.at head.now.end }
    ensures sign { IfSome result (IsSign source.now head.now) }
    ensures none { IfNone result (NoSign source.now head.now) }
{
    match content_start(source, head) {
        None => None,
        Some(first) => match accept(source, first, '|') {
            Some(_) => Some(Sign {
                at: first,
                block: Block::Literal,
            }),
            None => match accept(source, first, '>') {
                Some(_) => Some(Sign {
                    at: first,
                    block: Block::Folded,
                }),
                None => None,
            },
        },
    }
}

/// The column of a mapping and the border after the colon of its first key, if a node that ends at `end` is one.
#[inline(always)]
pub fn first_colon(
    source: &Chars<'_>,
    at: usize,
    end: usize,
    column: Option<usize>,
) -> Result<Option<(usize, usize)>, Fault>
    requires { IsStretch source.now at end }
    ensures found { IfOk result (λ found. IfSome found (λ r. IsFirstColon source.now at end column r.0 r.1)) }
    ensures none { IfOk result (λ found. IfNone found ((column ≡ None) ⊎ IsNoKey (text_of source.now) (place_of source.now at) (place_of source.now end))) }
    ensures err { IfErr result IsRefusal }
    ensures long { IfErr result (λ _. ColonStands (text_of source.now) (place_of source.now end) × IsNoKey (text_of source.now) (place_of source.now at) (place_of source.now end)) }
    ensures placed { IfErr result (IsPlaced source.now) }
{
    match column {
        None => Ok(None),
        Some(column) => {
            let (_, colon) = skip_spaces(source, end);
            match accept(source, colon, ':') {
                None => Ok(None),
                Some(after) => match key_fit(source, at, colon) {
                    Fit::Fits => Ok(Some((column, after))),
                    Fit::Broken => Ok(None),
                    Fit::Long => Err(Fault::KeyTooLong(source.pos(at))),
                },
            }
        }
    }
}

/// The start of the line after a node's own properties, which end at `end`, if they end their line.
#[inline(always)]
pub fn line_after(source: &Chars<'_>, end: usize, own: &Properties<'_>) -> Option<usize>
    requires { IsBorder source.now end }
    ensures some { IfSome result (λ _. props_of own.now ≢ no_props) }
    ensures border { IfSome result (λ start. IsBorder source.now start) }
    ensures onward { IfSome result (λ start. end ≤ start) }
    ensures comments { IfSome result (λ start. s_l_comments (text_of source.now) (place_of source.now end) (place_of source.now start)) }
    ensures stuck { IfSome result (λ start. (j : ℕ) → l_comment (text_of source.now) (place_of source.now start) j → ⊥) }
    ensures none { IfNone result (LineGoesOn (text_of source.now) (place_of source.now end) (props_of own.now)) }
{
    if own.is_none() {
        return None;
    }
    skip_line_rest(source, end)
}

/// Whether content may follow a node's own properties on their line, which end at `end`: always, if there are none.
pub fn line_goes_on(source: &Chars<'_>, end: usize, own: &Properties<'_>) -> bool
    requires { IsBorder source.now end }
    ensures yes { OnTrue result (LineGoesOn (text_of source.now) (place_of source.now end) (props_of own.now)) }
    ensures no { OnFalse result ((props_of own.now ≢ no_props) × ((j : ℕ) × s_l_comments (text_of source.now) (place_of source.now end) j)) }
{
    if own.is_none() {
        return true;
    }
    match skip_line_rest(source, end) {
        None => true,
        Some(_) => false,
    }
}

/// Whether a node at a border may have these properties: an alias has none.
pub fn may_bear(source: &Chars<'_>, at: usize, outer: &Properties<'_>) -> bool
    requires { IsBorder source.now at }
    ensures yes { OnTrue result (MayBear (text_of source.now) (place_of source.now at) (props_of outer.now)) }
    ensures no { OnFalse result (MayBear (text_of source.now) (place_of source.now at) (props_of outer.now) → ⊥) }
{
    if outer.is_none() {
        return true;
    }
    match accept(source, at, '*') {
        None => true,
        Some(_) => false,
    }
}
