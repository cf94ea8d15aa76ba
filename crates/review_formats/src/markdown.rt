//! Tables in Markdown.
ghost use Rattle.std.specs.Prelude.{◌≡◌, ◌++◌, string_bytes, IfOk, OnOk};
ghost use Rattle.std.specs.List.{flat_map, list_any};
ghost use Rattle.review_formats.specs.Changes.{changed_lines};
ghost use Rattle.review_formats.specs.Escaped.{escaped};
ghost use Rattle.review_formats.specs.Pieces.{piece_text};
ghost use Rattle.review_formats.specs.declared.escape.Escape.TheVariants.{Markdown};
ghost use Rattle.review_formats.specs.Markdown.{code_part, code_text, code_cell, cell_text, place_cell, difference_row, other_row, is_of, row_text, table_head, table_text, line_text, summary_text, details_text, changes_text, name_text, part_text, names_text, none_text, head_text, more_text, markdown_text};

use crate::changes::{without_end, without_tab};
use crate::escape::Escape;
use crate::finding::{Finding, Findings, Part, Sides};
use crate::piece::{Piece, put_pieces};
use std::alloc::{AllocError, Global};
use yaml_path::Place;

/// A text in the table.
fn text(text: &str) -> Piece<'_>
    ensures { piece_text result ≡ escaped Markdown text.now }
{
    Piece::Text(Escape::Markdown, text)
}

/// Writes what stands between two `@` of a code, with the `@` before it if it is not the first.
fn put_code_part(out: &mut String, number: usize, part: &str) -> Result<(), AllocError>
    ensures ok { OnOk result (string_bytes out.new ≡ string_bytes out.old ++ code_part (number, part.now)) }
{
    if number > 0 {
        put_pieces(
            out,
            &[Piece::Raw("</code><code>&#x40;</code><code>"), text(part)],
        )
    } else {
        put_pieces(out, &[text(part)])
    }
}

/// Writes a text as code. At each `@` the code begins anew, so that no reader takes a name or an address from it.
fn put_code(out: &mut String, code: &str) -> Result<(), AllocError>
    ensures ok { OnOk result (string_bytes out.new ≡ string_bytes out.old ++ code_text code.now) }
{
    out.push_str("<code>")?;
    'parts: for (number, part) in code.split('@').enumerate() {
        put_code_part(out, number, part)?;
    }
    out.push_str("</code>")?;
    Ok(())
}

/// Writes a cell with code.
#[tactic(auto, using(crate::proofs::PieceLaws::three_put))]
fn put_code_cell(out: &mut String, code: &str) -> Result<(), AllocError>
    ensures ok { OnOk result (string_bytes out.new ≡ string_bytes out.old ++ code_cell code.now) }
{
    out.push_str(" ")?;
    put_code(out, code)?;
    out.push_str(" |")?;
    Ok(())
}

/// Writes a cell with code, if there is any.
fn put_cell(out: &mut String, code: &Option<String>) -> Result<(), AllocError>
    ensures ok { OnOk result (string_bytes out.new ≡ string_bytes out.old ++ cell_text code.now) }
{
    match code {
        Some(code) => put_code_cell(out, code),
        None => put_pieces(out, &[Piece::Raw(" |")]),
    }
}

/// Writes a cell with a line and a column, if there are.
fn put_place(out: &mut String, place: Option<Place>) -> Result<(), AllocError>
    ensures ok { OnOk result (string_bytes out.new ≡ string_bytes out.old ++ place_cell place) }
{
    match place {
        Some(place) => put_pieces(
            out,
            &[
                Piece::Raw(" "),
                Piece::Number(place.line),
                Piece::Raw(":"),
                Piece::Number(place.column),
                Piece::Raw(" |"),
            ],
        ),
        None => put_pieces(out, &[Piece::Raw(" |")]),
    }
}

/// Writes the row of a difference.
fn put_difference(out: &mut String, finding: &Finding, sides: &Sides) -> Result<(), AllocError>
    ensures ok { OnOk result (string_bytes out.new ≡ string_bytes out.old ++ difference_row finding.now sides.now) }
{
    out.push_str("| ")?;
    sides.put_says(out)?;
    out.push_str(" |")?;
    put_cell(out, &finding.path)?;
    put_cell(out, &sides.left)?;
    put_cell(out, &sides.right)?;
    put_place(out, sides.left_place)?;
    put_place(out, sides.right_place)?;
    out.push_str("\n")?;
    Ok(())
}

/// Writes the row of a fault or a warning.
fn put_other(out: &mut String, finding: &Finding) -> Result<(), AllocError>
    ensures ok { OnOk result (string_bytes out.new ≡ string_bytes out.old ++ other_row finding.now) }
{
    out.push_str("|")?;
    put_code_cell(out, &finding.file)?;
    put_place(out, finding.place)?;
    put_pieces(
        out,
        &[Piece::Raw(" "), text(finding.rule), Piece::Raw(" |")],
    )?;
    put_cell(out, &finding.path)?;
    put_code_cell(out, &finding.message)?;
    out.push_str("\n")?;
    Ok(())
}

/// Writes the row of a finding in the table of differences, or in the table of what is none.
fn put_row(out: &mut String, finding: &Finding, sides: bool) -> Result<(), AllocError>
    ensures ok { OnOk result (string_bytes out.new ≡ string_bytes out.old ++ row_text sides finding.now) }
{
    match &finding.sides {
        Some(both) if sides => put_difference(out, finding, both),
        None if !sides => put_other(out, finding),
        _ => Ok(()),
    }
}

/// Writes a changed line.
fn put_line(out: &mut String, line: &str) -> Result<(), AllocError>
    ensures ok { OnOk result (string_bytes out.new ≡ string_bytes out.old ++ line_text line.now) }
{
    put_pieces(out, &[text(without_tab(line)), Piece::Raw("\n")])
}

/// Writes the changed lines of two strings.
fn put_lines(out: &mut String, changes: &str) -> Result<(), AllocError>
    ensures ok { OnOk result (string_bytes out.new ≡ string_bytes out.old ++ flat_map line_text (changed_lines changes.now)) }
{
    'lines: for line in without_end(changes).split('\n') {
        put_line(out, line)?;
    }
    Ok(())
}

/// Writes a path as code, or `.` where there is none.
fn put_summary(out: &mut String, path: &Option<String>) -> Result<(), AllocError>
    ensures ok { OnOk result (string_bytes out.new ≡ string_bytes out.old ++ summary_text path.now) }
{
    match path {
        Some(path) => put_code(out, path),
        None => put_code(out, "."),
    }
}

/// Writes the changed lines of two strings below the path.
fn put_details(out: &mut String, path: &Option<String>, changes: &str) -> Result<(), AllocError>
    ensures ok { OnOk result (string_bytes out.new ≡ string_bytes out.old ++ details_text path.now changes.now) }
{
    out.push_str("\n<details><summary>")?;
    put_summary(out, path)?;
    out.push_str("</summary>\n\n<pre>\n")?;
    put_lines(out, changes)?;
    out.push_str("</pre>\n\n</details>\n")?;
    Ok(())
}

/// Writes the changed lines of a finding below the table, if it has any.
fn put_changes(out: &mut String, finding: &Finding) -> Result<(), AllocError>
    ensures ok { OnOk result (string_bytes out.new ≡ string_bytes out.old ++ changes_text finding.now) }
{
    let Some(sides) = &finding.sides else {
        return Ok(());
    };
    match &sides.changes {
        Some(changes) => put_details(out, &finding.path, changes),
        None => Ok(()),
    }
}

/// Writes what was compared, if two were.
fn put_names(out: &mut String, names: &Option<(String, String)>) -> Result<(), AllocError>
    ensures ok { OnOk result (string_bytes out.new ≡ string_bytes out.old ++ names_text names.now) }
{
    let Some((left, right)) = names else {
        return Ok(());
    };
    out.push_str(" ")?;
    put_code(out, left)?;
    out.push_str(" ")?;
    put_code(out, right)
}

/// Writes the command, what was compared, and whether nothing is found.
fn put_head(out: &mut String, found: &Findings) -> Result<(), AllocError>
    ensures ok { OnOk result (string_bytes out.new ≡ string_bytes out.old ++ head_text found.now) }
{
    out.push_str("**yamlreview ")?;
    out.push_str(found.command)?;
    out.push_str("**")?;
    put_names(out, &found.names)?;
    out.push_str("\n\n")?;
    let none = if found.count() == 0 {
        "Nothing is found.\n"
    } else {
        ""
    };
    out.push_str(none)?;
    Ok(())
}

/// The head of a table.
fn head_of(sides: bool) -> &'static str
    ensures { result.now ≡ table_head sides }
{
    if sides {
        "| | path | left | right | left at | right at |\n|---|---|---|---|---|---|\n"
    } else {
        "| file | at | | path | |\n|---|---|---|---|---|\n"
    }
}

/// Whether a finding is a difference, or whether it is none.
fn is_of(sides: bool, finding: &Finding) -> bool
    ensures { result ≡ is_of sides finding.now }
{
    finding.sides.is_some() == sides
}

/// Whether a table has a row.
fn has_rows(list: &[Finding], sides: bool) -> bool
    ensures { result ≡ list_any (λ one. is_of sides one) list.now }
{
    list.iter().any(|finding| is_of(sides, finding))
}

/// Writes the rows of a table.
fn put_rows(out: &mut String, list: &[Finding], sides: bool) -> Result<(), AllocError>
    ensures ok { OnOk result (string_bytes out.new ≡ string_bytes out.old ++ flat_map (row_text sides) list.now) }
{
    'rows: for finding in list {
        put_row(out, finding, sides)?;
    }
    Ok(())
}

/// Writes the table of a part's differences, or of what is none, if it has a row.
#[tactic(auto, using(crate::proofs::PieceLaws::two_put))]
fn put_table(out: &mut String, list: &[Finding], sides: bool) -> Result<(), AllocError>
    ensures ok { OnOk result (string_bytes out.new ≡ string_bytes out.old ++ table_text sides list.now) }
{
    if !has_rows(list, sides) {
        return Ok(());
    }
    out.push_str(head_of(sides))?;
    put_rows(out, list, sides)
}

/// Writes the name of a file, if there are several.
#[tactic(auto, using(crate::proofs::PieceLaws::three_put))]
fn put_name(out: &mut String, name: &Option<String>) -> Result<(), AllocError>
    ensures ok { OnOk result (string_bytes out.new ≡ string_bytes out.old ++ name_text name.now) }
{
    let Some(name) = name else {
        return Ok(());
    };
    out.push_str("\n")?;
    put_code(out, name)?;
    out.push_str("\n\n")?;
    Ok(())
}

/// Writes the changed lines of all findings.
fn put_all_changes(out: &mut String, list: &[Finding]) -> Result<(), AllocError>
    ensures ok { OnOk result (string_bytes out.new ≡ string_bytes out.old ++ flat_map changes_text list.now) }
{
    'findings: for finding in list {
        put_changes(out, finding)?;
    }
    Ok(())
}

/// Writes a part: the name of the file if there are several, a table, and changed lines below it.
#[tactic(auto, using(crate::proofs::PieceLaws::four_put))]
fn put_part(out: &mut String, part: &Part) -> Result<(), AllocError>
    ensures ok { OnOk result (string_bytes out.new ≡ string_bytes out.old ++ part_text part.now) }
{
    put_name(out, &part.name)?;
    put_table(out, &part.list, true)?;
    put_table(out, &part.list, false)?;
    put_all_changes(out, &part.list)
}

/// Writes all parts.
fn put_parts(out: &mut String, parts: &[Part]) -> Result<(), AllocError>
    ensures ok { OnOk result (string_bytes out.new ≡ string_bytes out.old ++ flat_map part_text parts.now) }
{
    'parts: for part in parts {
        put_part(out, part)?;
    }
    Ok(())
}

/// Writes what is not listed, if there is something.
fn put_more(out: &mut String, found: &Findings) -> Result<(), AllocError>
    ensures ok { OnOk result (string_bytes out.new ≡ string_bytes out.old ++ more_text found.now) }
{
    found.left_out().put_between(out, "\nNot listed: ", "\n")
}

/// What is found as tables in Markdown, each with changed lines below it.
///
/// # Errors
/// 21: memory is refused.
#[tactic(auto, using(crate::proofs::PieceLaws::three_put))]
pub fn markdown_text(alloc: Global, found: &Findings) -> Result<String, AllocError>
    ensures ok { IfOk result (λ text. string_bytes text ≡ markdown_text found.now) }
{
    let mut out = String::new(alloc);
    put_head(&mut out, found)?;
    put_parts(&mut out, &found.parts)?;
    put_more(&mut out, found)?;
    Ok(out)
}
