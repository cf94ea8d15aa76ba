//! What flow nodes and their parts begin and end with.
ghost use Rattle.std.specs.Prelude.{◌≡◌, ◌≤◌, ◌⊎◌, IfSome, IfNone, IfOk, IfErr};
ghost use Rattle.std.specs.Bool.{OnTrue, OnFalse};
ghost use Rattle.yaml_text.specs.Place.{Steps};
ghost use Rattle.yaml_text.specs.Source.{bytes_of, text_of, place_of, IsBorder};
ghost use Rattle.yaml_text.specs.EventModel.{context_of};
ghost use Rattle.yaml_definitions.specs.grammar.Characters.{c-mapping-key, c-mapping-value};
ghost use Rattle.yaml_definitions.specs.grammar.Separation.{inner};
ghost use Rattle.yaml_text.specs.Lines.{Inside};
ghost use Rattle.law_one_reading.specs.Follows.{Closes};
ghost use Rattle.yaml_text.specs.LeafAnswer.{IsRefusal};
ghost use Rattle.yaml_text.specs.Placed.{IsPlaced};
ghost use Rattle.yaml_flow.specs.FlowDecisions.{NoKey, LongKey};
ghost use Rattle.yaml_layout.specs.Lines.{IsStretch, LeadsFrom, NothingFollows};
ghost use Rattle.yaml_layout.specs.NodeRules.{IsInner};
ghost use Rattle.yaml_flow.specs.FlowRules.{MayFollowColon, SignAt, AskedAt, IsParted, FirstIs, IsKeyColon};

use yaml_layout::flow::Kind;
use yaml_layout::key::{Fit, key_fit};
use yaml_layout::line::separation;
use yaml_text::chars::Chars;
use yaml_text::class::is_plain_safe;
use yaml_text::context::Ctx;
use yaml_text::fault::Fault;
use yaml_text::lines::skip_spaces;
use yaml_text::places::{accept, next};

/// What a flow node begins with.
#[derive(Clone, Copy)]
pub enum First {
    Sequence(usize),
    Mapping(usize),
    Single,
    Double,
    Other,
}

/// What stands at a border where a flow node may begin.
pub fn first_of(source: &Chars<'_>, at: usize) -> First
    requires { IsBorder source.now at }
    ensures { FirstIs source.now at result }
{
    match next(source, at) {
        None => First::Other,
        Some((c, to)) => match c {
            '[' => First::Sequence(to),
            '{' => First::Mapping(to),
            '\'' => First::Single,
            '"' => First::Double,
            _ => First::Other,
        },
    }
}

/// The context inside a flow collection (`in-flow`, 7.4).
#[tactic(auto, unfolding(yaml_definitions::specs::grammar::Separation::inner))]
pub fn inner(context: Ctx) -> Ctx
    ensures context { context_of result ≡ inner (context_of context) }
    ensures within { IsInner (context_of result) }
{
    match context {
        Ctx::BlockKey => Ctx::FlowKey,
        Ctx::FlowKey => Ctx::FlowKey,
        Ctx::BlockOut => Ctx::FlowIn,
        Ctx::BlockIn => Ctx::FlowIn,
        Ctx::FlowOut => Ctx::FlowIn,
        Ctx::FlowIn => Ctx::FlowIn,
    }
}

/// The border after the separation that follows a part, as much as there is.
pub fn part_gap(source: &Chars<'_>, at: usize, least: usize, context: Ctx) -> Result<usize, Fault>
    requires { IsBorder source.now at }
    ensures leads { IfOk result (LeadsFrom source.now at least (context_of context)) }
    ensures err { IfErr result IsRefusal }
    ensures none { IfErr result (λ _. Inside (text_of source.now) (place_of source.now at) ⊎ Closes (text_of source.now) (place_of source.now at) → NothingFollows source.now at least (context_of context)) }
    ensures placed { IfErr result (IsPlaced source.now) }
{
    if ends_value(source, at) {
        // what closes it may begin a line
        return Ok(at);
    }
    separation(source, at, least, context)
}

/// The border after the colon that makes a node a key, if it stands at a border.
pub fn value_sign(source: &Chars<'_>, at: usize, kind: Kind, context: Ctx) -> Option<usize>
    requires { IsBorder source.now at }
    ensures colon { IfSome result (λ after. Steps (bytes_of source.now) at c-mapping-value after) }
    ensures sign { IfSome result (λ after. MayFollowColon kind (context_of context) (text_of source.now) (place_of source.now after)) }
    ensures none { IfNone result (SignAt kind (context_of context) (text_of source.now) (place_of source.now at) → ⊥) }
{
    match accept(source, at, ':') {
        None => None,
        Some(after) => match kind {
            Kind::Json => Some(after),
            Kind::Yaml => match next(source, after) {
                Some((c, _)) if is_plain_safe(context, c) => None,
                _ => Some(after),
            },
        },
    }
}

/// The border after the `?` that begins an entry, if it stands at a border.
pub fn question_sign(source: &Chars<'_>, at: usize, context: Ctx) -> Option<usize>
    requires { IsBorder source.now at }
    ensures sign { IfSome result (λ after. Steps (bytes_of source.now) at c-mapping-key after) }
    ensures asked { IfSome result (λ _. AskedAt (context_of context) (text_of source.now) (place_of source.now at)) }
    ensures none { IfNone result (AskedAt (context_of context) (text_of source.now) (place_of source.now at) → ⊥) }
{
    match accept(source, at, '?') {
        None => None,
        Some(after) => match next(source, after) {
            Some((c, _)) if is_plain_safe(context, c) => None,
            _ => Some(after),
        },
    }
}

/// The colon that makes a node from `at` to `end` the key of a pair, if it stands after it, and the border after the colon.
#[inline(always)]
pub fn key_colon(
    source: &Chars<'_>,
    at: usize,
    end: usize,
    kind: Kind,
    context: Ctx,
) -> Result<Option<(usize, usize)>, Fault>
    requires { IsStretch source.now at end }
    ensures found { IfOk result (λ found. IfSome found (λ r. IsKeyColon source.now at end kind (context_of context) r.0 r.1)) }
    ensures none { IfOk result (λ found. IfNone found (NoKey (text_of source.now) kind (context_of context) (place_of source.now at) (place_of source.now end))) }
    ensures err { IfErr result IsRefusal }
    ensures long { IfErr result (λ _. LongKey (text_of source.now) kind (context_of context) (place_of source.now at) (place_of source.now end)) }
    ensures placed { IfErr result (IsPlaced source.now) }
{
    let (_, colon) = skip_spaces(source, end);
    match value_sign(source, colon, kind, context) {
        None => Ok(None),
        Some(after) => match key_fit(source, at, colon) {
            Fit::Broken => Ok(None),
            Fit::Long => Err(Fault::KeyTooLong(source.pos(at))),
            Fit::Fits => Ok(Some((colon, after))),
        },
    }
}

/// Whether what begins at `start` may be the value after a colon that ends at `after`: after a YAML key something has to part them.
pub fn is_parted(kind: Kind, after: usize, start: usize) -> bool
    requires { after ≤ start }
    ensures yes { OnTrue result (IsParted kind after start) }
    ensures no { OnFalse result (IsParted kind after start → ⊥) }
{
    match kind {
        Kind::Yaml => after < start,
        Kind::Json => true,
    }
}

/// Whether nothing of a value stands before a border.
pub fn ends_value(source: &Chars<'_>, at: usize) -> bool
    requires { IsBorder source.now at }
    ensures yes { OnTrue result (Closes (text_of source.now) (place_of source.now at)) }
    ensures no { OnFalse result (Closes (text_of source.now) (place_of source.now at) → ⊥) }
{
    match next(source, at) {
        Some((',' | ']' | '}', _)) => true,
        _ => false,
    }
}
