//! One directive (YAML 1.2.2, 6.8).
ghost use Rattle.std.specs.Prelude.{◌≡◌, ◌≤◌, ◌<◌, ◌⊎◌, IfOk, IfErr, IfSome, IfNone, [], ◌∷◌, ℕ, Bool, false, Some, slice_get};
ghost use Rattle.yaml_text.specs.LeafAnswer.{Only};
ghost use Rattle.yaml_text.specs.Placed.{IsPlaced};
ghost use Rattle.yaml_text.specs.Source.{text_of, place_of, IsBorder};
ghost use Rattle.yaml_definitions.specs.grammar.Directives as grammar;
ghost use Rattle.yaml_definitions.specs.grammar.Rules.{any_span, some_run, Stands, chr};
ghost use Rattle.yaml_definitions.specs.grammar.Characters.{is_space, c-directive};
ghost use Rattle.yaml_definitions.specs.grammar.Tags.{uri_char};
ghost use Rattle.yaml_definitions.specs.grammar.Separation.{StartsLine, AtEnd, l-comment as l_comment};
ghost use Rattle.yaml_mark.specs.DirectiveParts.{IsMalformed, Settles, is_repeated, OnlyRepeats, WholeRepeats, parameter, prefix_start, prefix_run, version_rest, binding_rest, body, whole_directive, directive_of};
ghost use Rattle.yaml_mark.specs.HandlesModel.{bindings_of};

use crate::comments::skip_comments;
use crate::handles::Handles;
use crate::runs::{Class, next_escaped, skip_escaped, skip_run};
use crate::tag::skip_handle;
use yaml_text::chars::Chars;
use yaml_text::fault::Fault;
use yaml_text::lines::skip_spaces;
use yaml_text::places::{accept, text_between};

/// What a directive says.
#[derive(Clone, Copy)]
pub(crate) enum Directive<'a> {
    /// The version 1.2.
    Version,
    /// A handle and its prefix.
    Binding(&'a str, &'a str),
    /// What another name says, which is ignored.
    Reserved,
}

/// The fault of the directive at `at`, which can't be read on at `here`: a tab is one where a space may stand.
fn malformed(source: &Chars<'_>, at: usize, here: usize) -> Fault
    requires at { IsBorder source.now at }
    requires percent { slice_get (text_of source.now) (place_of source.now at) ≡ Some c-directive }
    requires here { IsBorder source.now here }
    ensures malformed { IsMalformed result }
    ensures placed { IsPlaced source.now result }
{
    match accept(source, here, '\t') {
        Some(_) => Fault::Tab(source.pos(here)),
        None => Fault::BadDirective(source.pos(at)),
    }
}

/// The border after the spaces that stand at a border, one at least. Without one there is the place of the fault.
fn skip_gap(source: &Chars<'_>, at: usize, from: usize) -> Result<usize, Fault>
    requires at { IsBorder source.now at }
    requires percent { slice_get (text_of source.now) (place_of source.now at) ≡ Some c-directive }
    requires from { IsBorder source.now from }
    ensures border { IfOk result (λ to. IsBorder source.now to) }
    ensures onward { IfOk result (λ to. from < to) }
    ensures spaces { IfOk result (λ to. some_run (text_of source.now) is_space (place_of source.now from) (place_of source.now to)) }
    ensures furthest { IfOk result (λ to. Stands (text_of source.now) is_space (place_of source.now to) → ⊥) }
    ensures none { IfErr result (λ _. Stands (text_of source.now) is_space (place_of source.now from) → ⊥) }
    ensures malformed { IfErr result IsMalformed }
    ensures placed { IfErr result (IsPlaced source.now) }
{
    let (_, to) = skip_spaces(source, from);
    if to == from {
        return Err(malformed(source, at, from));
    }
    Ok(to)
}

/// The border after the version of the directive at `at`, whose name ends at `from`.
fn read_version(source: &Chars<'_>, at: usize, from: usize) -> Result<usize, Fault>
    requires at { IsBorder source.now at }
    requires percent { slice_get (text_of source.now) (place_of source.now at) ≡ Some c-directive }
    requires from { IsBorder source.now from }
    ensures border { IfOk result (λ to. IsBorder source.now to) }
    ensures onward { IfOk result (λ to. from < to) }
    ensures is { IfOk result (λ to. version_rest (text_of source.now) (place_of source.now from) (place_of source.now to)) }
    ensures none { IfErr result (λ _. (j : ℕ) → version_rest (text_of source.now) (place_of source.now from) j → ⊥) }
    ensures malformed { IfErr result IsMalformed }
    ensures placed { IfErr result (IsPlaced source.now) }
{
    let digit = skip_gap(source, at, from)?;
    match accept(source, digit, '1') {
        None => Err(malformed(source, at, digit)),
        Some(dot) => match accept(source, dot, '.') {
            None => Err(malformed(source, at, at)),
            Some(last) => match accept(source, last, '2') {
                None => Err(malformed(source, at, at)),
                Some(to) => Ok(to),
            },
        },
    }
}

/// The border after the prefix that stands at a border (6.8.2.2).
fn skip_prefix(source: &Chars<'_>, at: usize) -> Option<usize>
    requires { IsBorder source.now at }
    ensures border { IfSome result (λ to. IsBorder source.now to) }
    ensures onward { IfSome result (λ to. at < to) }
    ensures some { IfSome result (λ to. prefix_run (text_of source.now) (place_of source.now at) (place_of source.now to)) }
    ensures furthest { IfSome result (λ to. (j : ℕ) → uri_char (text_of source.now) (place_of source.now to) j → ⊥) }
    ensures none { IfNone result ((j : ℕ) → prefix_start (text_of source.now) (place_of source.now at) j → ⊥) }
{
    match accept(source, at, '!') {
        Some(to) => Some(skip_escaped(source, to, Class::Uri)),
        None => match next_escaped(source, at, Class::Tag) {
            Some(to) => Some(skip_escaped(source, to, Class::Uri)),
            None => None,
        },
    }
}

/// The handle and the prefix of the directive at `at`, whose name ends at `from`, and the border after them. A handle that is
/// bound already is an error as soon as it is read, whatever follows it.
fn read_binding<'a>(
    source: &Chars<'a>,
    at: usize,
    from: usize,
    handles: &Handles<'_>,
) -> Result<((&'a str, &'a str), usize), Fault>
    requires at { IsBorder source.now at }
    requires percent { slice_get (text_of source.now) (place_of source.now at) ≡ Some c-directive }
    requires from { IsBorder source.now from }
    ensures border { IfOk result (λ r. IsBorder source.now r.1) }
    ensures onward { IfOk result (λ r. from < r.1) }
    ensures settles { IfOk result (λ r. Settles (text_of source.now) (binding_rest (text_of source.now)) (place_of source.now from) (place_of source.now r.1) (grammar.binding r.0.0.now r.0.1.now)) }
    ensures fresh { IfOk result (λ r. (version : Bool) → is_repeated version (bindings_of handles.now) (grammar.binding r.0.0.now r.0.1.now) ≡ false) }
    ensures none { IfErr result (λ _. (version : Bool) → OnlyRepeats (text_of source.now) version (bindings_of handles.now) (binding_rest (text_of source.now)) (place_of source.now from)) }
    ensures malformed { IfErr result IsMalformed }
    ensures placed { IfErr result (IsPlaced source.now) }
{
    let start = skip_gap(source, at, from)?;
    let first = match accept(source, start, '!') {
        None => return Err(malformed(source, at, start)),
        Some(first) => first,
    };
    let after = skip_handle(source, first);
    let handle = text_between(source, start, after);
    if handles.binds(handle) {
        return Err(Fault::BadDirective(source.pos(at)));
    }
    let prefix = skip_gap(source, at, after)?;
    match skip_prefix(source, prefix) {
        None => Err(malformed(source, at, prefix)),
        Some(end) => Ok(((handle, text_between(source, prefix, end)), end)),
    }
}

/// The border after a parameter that no `#` begins, and the spaces before it.
fn next_parameter(source: &Chars<'_>, at: usize) -> Option<usize>
    requires { IsBorder source.now at }
    ensures border { IfSome result (λ to. IsBorder source.now to) }
    ensures onward { IfSome result (λ to. at < to) }
    ensures some { IfSome result (λ to. parameter (text_of source.now) (place_of source.now at) (place_of source.now to)) }
    ensures none { IfNone result ((j : ℕ) → parameter (text_of source.now) (place_of source.now at) j → ⊥) }
{
    let (_, from) = skip_spaces(source, at);
    if from == at {
        return None;
    }
    match accept(source, from, '#') {
        Some(_) => None,
        None => {
            let to = skip_run(source, from, Class::Solid);
            if to == from {
                return None;
            }
            Some(to)
        }
    }
}

/// The border after a reserved directive's parameters. A `#` after spaces begins a comment, which goes on past what no
/// parameter holds.
fn skip_parameters(source: &Chars<'_>, at: usize) -> usize
    requires { IsBorder source.now at }
    ensures border { IsBorder source.now result }
    ensures onward { at ≤ result }
    ensures spans { any_span (parameter (text_of source.now)) (place_of source.now at) (place_of source.now result) }
    ensures furthest { (j : ℕ) → parameter (text_of source.now) (place_of source.now result) j → ⊥ }
{
    let mut here = at;
    'parameters: loop {
        match next_parameter(source, here) {
            None => return here,
            Some(to) => here = to,
        }
    }
}

/// The directive at `at`, whose `%` ends at `start`, and the border after its last character. The directives before it have bound
/// these handles, and maybe said a version.
fn read_body<'a>(
    source: &Chars<'a>,
    at: usize,
    start: usize,
    handles: &Handles<'_>,
    has_version: bool,
) -> Result<(Directive<'a>, usize), Fault>
    requires at { IsBorder source.now at }
    requires start { IsBorder source.now start }
    requires order { at < start }
    requires percent { chr (text_of source.now) c-directive (place_of source.now at) (place_of source.now start) }
    ensures border { IfOk result (λ r. IsBorder source.now r.1) }
    ensures onward { IfOk result (λ r. at < r.1) }
    ensures settles { IfOk result (λ r. Settles (text_of source.now) (body (text_of source.now)) (place_of source.now at) (place_of source.now r.1) (directive_of r.0)) }
    ensures fresh { IfOk result (λ r. is_repeated has_version (bindings_of handles.now) (directive_of r.0) ≡ false) }
    ensures none { IfErr result (λ _. OnlyRepeats (text_of source.now) has_version (bindings_of handles.now) (body (text_of source.now)) (place_of source.now at)) }
    ensures malformed { IfErr result IsMalformed }
    ensures placed { IfErr result (IsPlaced source.now) }
{
    let end = skip_run(source, start, Class::Solid);
    let name = text_between(source, start, end);
    if name == "YAML" {
        if has_version {
            return Err(Fault::BadDirective(source.pos(at)));
        }
        let to = read_version(source, at, end)?;
        return Ok((Directive::Version, to));
    }
    if name == "TAG" {
        let ((handle, prefix), to) = read_binding(source, at, end, handles)?;
        return Ok((Directive::Binding(handle, prefix), to));
    }
    if end == start {
        return Err(malformed(source, at, at));
    }
    Ok((Directive::Reserved, skip_parameters(source, end)))
}

/// The directive at `at`, whose `%` ends at `start`, and the border after its line and the comment lines that follow it. The
/// directives before it have bound these handles, and maybe said a version: it may not repeat one of them.
pub(crate) fn read_directive<'a>(
    source: &Chars<'a>,
    at: usize,
    start: usize,
    handles: &Handles<'_>,
    has_version: bool,
) -> Result<(Directive<'a>, usize), Fault>
    requires at { IsBorder source.now at }
    requires start { IsBorder source.now start }
    requires order { at < start }
    requires percent { chr (text_of source.now) c-directive (place_of source.now at) (place_of source.now start) }
    requires line { StartsLine (text_of source.now) (place_of source.now at) }
    ensures border { IfOk result (λ r. IsBorder source.now r.1) }
    ensures onward { IfOk result (λ r. at < r.1) }
    ensures after { IfOk result (λ r. StartsLine (text_of source.now) (place_of source.now r.1) ⊎ AtEnd (text_of source.now) (place_of source.now r.1)) }
    ensures only { IfOk result (λ r. Only (whole_directive (text_of source.now)) (place_of source.now at) (place_of source.now r.1) (directive_of r.0 ∷ [])) }
    ensures fresh { IfOk result (λ r. is_repeated has_version (bindings_of handles.now) (directive_of r.0) ≡ false) }
    ensures none { IfErr result (λ _. WholeRepeats (text_of source.now) has_version (bindings_of handles.now) (place_of source.now at)) }
    ensures malformed { IfErr result IsMalformed }
    ensures placed { IfErr result (IsPlaced source.now) }
{
    let (directive, end) = read_body(source, at, start, handles, has_version)?;
    match skip_comments(source, end) {
        Some(line) => Ok((directive, line)),
        None => {
            let (_, stop) = skip_spaces(source, end);
            Err(malformed(source, at, stop))
        }
    }
}
