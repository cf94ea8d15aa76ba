//! One page of HTML.
ghost use Rattle.std.specs.Prelude.{◌≡◌, ◌+◌, ◌++◌, List, ℕ, codes, length, string_bytes, IfOk, OnOk};
ghost use Rattle.std.specs.List.{flat_map, enumerate_from};
ghost use Rattle.review_html.specs.Headings.{front_text};
ghost use Rattle.review_html.specs.Html.{title_names, title_text, compared_text, header_names, places_text, files_text, count_text, more_text, header_text, numbered, link_item, part_links, links_text, number_by, sections_text, IsPartText, IsHtml};
ghost use Rattle.review_html.specs.Sides.{body_text};
ghost use Rattle.review_html.specs.Texts.{number_after, AreTexts};

use crate::heading::{put_file_front, put_file_link, put_front, put_link, text};
use crate::lines::put_files;
use crate::sides::put_body;
use crate::style::{HEAD, STYLE};
use review_formats::piece::{Piece, put_pieces};
use review_formats::{Finding, Findings, Part};
use std::alloc::{AllocError, Global};

/// Writes what was compared into the name of the page, if two were.
fn put_title_names(out: &mut String, names: &Option<(String, String)>) -> Result<(), AllocError>
    ensures ok { OnOk result (string_bytes out.new ≡ string_bytes out.old ++ title_names names.now) }
{
    match names {
        Some((left, right)) => put_pieces(
            out,
            &[
                Piece::Raw(": "),
                text(left),
                Piece::Raw(" "),
                Piece::Raw("→"),
                Piece::Raw(" "),
                text(right),
            ],
        ),
        None => Ok(()),
    }
}

/// Writes the name of the page: the command, and what was compared.
fn put_title(out: &mut String, found: &Findings) -> Result<(), AllocError>
    ensures ok { OnOk result (string_bytes out.new ≡ string_bytes out.old ++ title_text found.now) }
{
    out.push_str("<title>yamlreview ")?;
    out.push_str(found.command)?;
    put_title_names(out, &found.names)?;
    out.push_str("</title>\n<style>\n")?;
    Ok(())
}

/// Writes the names of what was compared.
fn put_compared<'a>(out: &mut String, left: &'a str, right: &'a str) -> Result<(), AllocError>
    ensures ok { OnOk result (string_bytes out.new ≡ string_bytes out.old ++ compared_text left.now right.now) }
{
    put_pieces(
        out,
        &[
            Piece::Raw("<p class=\"names\"><code>"),
            text(left),
            Piece::Raw("</code> "),
            Piece::Raw("→"),
            Piece::Raw(" <code>"),
            text(right),
            Piece::Raw("</code></p>\n"),
        ],
    )
}

/// Writes what was compared, if two were.
fn put_header_names(out: &mut String, names: &Option<(String, String)>) -> Result<(), AllocError>
    ensures ok { OnOk result (string_bytes out.new ≡ string_bytes out.old ++ header_names names.now) }
{
    match names {
        Some((left, right)) => put_compared(out, left, right),
        None => Ok(()),
    }
}

/// Writes how many places are found.
fn put_places(out: &mut String, count: usize) -> Result<(), AllocError>
    ensures ok { OnOk result (string_bytes out.new ≡ string_bytes out.old ++ places_text count) }
{
    match count {
        0 => put_pieces(out, &[Piece::Raw("<p>Nothing is found.</p>")]),
        1 => put_pieces(out, &[Piece::Raw("<p>1 place is found")]),
        _ => put_pieces(
            out,
            &[
                Piece::Raw("<p>"),
                Piece::Number(count),
                Piece::Raw(" places are found"),
            ],
        ),
    }
}

/// Writes in how many files, if there are several.
fn put_file_count(out: &mut String, files: usize) -> Result<(), AllocError>
    ensures ok { OnOk result (string_bytes out.new ≡ string_bytes out.old ++ files_text files) }
{
    if files > 1 {
        put_pieces(
            out,
            &[
                Piece::Raw(", in "),
                Piece::Number(files),
                Piece::Raw(" files"),
            ],
        )
    } else {
        Ok(())
    }
}

/// Writes how much is found, and in how many files if there are several.
fn put_count(out: &mut String, count: usize, files: usize) -> Result<(), AllocError>
    ensures ok { OnOk result (string_bytes out.new ≡ string_bytes out.old ++ count_text count files) }
{
    put_places(out, count)?;
    if count == 0 {
        return Ok(());
    }
    put_file_count(out, files)?;
    out.push_str(".</p>")?;
    Ok(())
}

/// Writes what is not listed, if there is something.
fn put_more(out: &mut String, found: &Findings) -> Result<(), AllocError>
    ensures ok { OnOk result (string_bytes out.new ≡ string_bytes out.old ++ more_text found.now.parts.items) }
{
    found
        .left_out()
        .put_between(out, "<p><strong>Not listed: ", "</strong></p>")
}

/// Writes what the page is about, and how much is found.
fn put_header(out: &mut String, found: &Findings) -> Result<(), AllocError>
    ensures ok { OnOk result (string_bytes out.new ≡ string_bytes out.old ++ header_text found.now) }
{
    out.push_str("<header><h1>yamlreview ")?;
    out.push_str(found.command)?;
    out.push_str("</h1>\n")?;
    put_header_names(out, &found.names)?;
    put_count(out, found.count(), part_count(found))?;
    put_more(out, found)?;
    out.push_str("</header>\n")?;
    Ok(())
}

/// How many findings a part has.
fn count_in(part: &Part) -> usize
    ensures { result ≡ length part.now.list.items }
{
    part.list.len()
}

/// How many parts there are.
fn part_count(found: &Findings) -> usize
    ensures { result ≡ length found.now.parts.items }
{
    found.parts.len()
}

/// The number of a finding of a list, before which there are so many.
fn number_after(before: usize, at: usize) -> usize
    ensures { result ≡ number_after (before + at) }
{
    before.saturating_add(at).saturating_add(1)
}

/// Writes the links to a list of findings, before which there are so many.
fn put_list_links(out: &mut String, list: &[Finding], before: usize) -> Result<(), AllocError>
    ensures ok { OnOk result (string_bytes out.new ≡ string_bytes out.old ++ flat_map link_item (enumerate_from before list.now)) }
{
    'links: for (at, finding) in list.iter().enumerate() {
        put_link(out, number_after(before, at), finding)?;
    }
    Ok(())
}

/// Writes the links to the findings of a part of this number.
fn put_part_links(
    out: &mut String,
    part: &Part,
    number: usize,
    before: usize,
) -> Result<(), AllocError>
    ensures ok { OnOk result (string_bytes out.new ≡ string_bytes out.old ++ part_links (number, before, part.now)) }
{
    put_file_link(out, &part.name, number)?;
    out.push_str("<ol>\n")?;
    put_list_links(out, &part.list, before)?;
    out.push_str("</ol>\n")?;
    Ok(())
}

/// Writes the links to all findings.
fn put_links(out: &mut String, parts: &[Part]) -> Result<(), AllocError>
    ensures ok { OnOk result (string_bytes out.new ≡ string_bytes out.old ++ links_text parts.now) }
{
    let mut before: usize = 0;
    out.push_str("<nav aria-label=\"All that is found\">\n")?;
    'parts: for (at, part) in parts.iter().enumerate() {
        put_part_links(out, part, at + 1, before)?;
        before = before.saturating_add(count_in(part));
    }
    out.push_str("</nav>\n")?;
    Ok(())
}

/// Writes the section of the finding of this number, which is in this part.
#[tactic(auto, using(review_formats::proofs::PieceLaws::three_put))]
fn put_section(
    out: &mut String,
    part: usize,
    number: usize,
    finding: &Finding,
) -> Result<(), AllocError>
    ensures ok { OnOk result (string_bytes out.new ≡ string_bytes out.old ++ (front_text number finding.now ++ (body_text part finding.now ++ codes "</section>\n"))) }
{
    put_front(out, number, finding)?;
    put_body(out, part, finding)?;
    out.push_str("</section>\n")?;
    Ok(())
}

/// Writes the sections of a list of findings.
fn put_sections(
    out: &mut String,
    list: &[Finding],
    number: usize,
    before: usize,
) -> Result<(), AllocError>
    ensures ok { OnOk result (string_bytes out.new ≡ string_bytes out.old ++ sections_text number before list.now) }
{
    'sections: for (at, finding) in list.iter().enumerate() {
        put_section(out, number, number_after(before, at), finding)?;
    }
    Ok(())
}

/// The number of a part, which is 0 for one that has no name.
fn number_of(part: &Part, number: usize) -> usize
    ensures { result ≡ number_by number part.now.name }
{
    match part.name {
        Some(_) => number,
        None => 0,
    }
}

/// Writes a part: its name, a section for each finding, and the lines of its files.
fn put_part(
    alloc: Global,
    out: &mut String,
    part: &Part,
    number: usize,
    before: usize,
) -> Result<(), AllocError>
    ensures ok { OnOk result ((text : List ℕ) × IsPartText (number, before, part.now) text × (string_bytes out.new ≡ string_bytes out.old ++ text)) }
{
    let side_number = number_of(part, number);
    put_file_front(out, &part.name, number)?;
    put_sections(out, &part.list, side_number, before)?;
    put_files(alloc, out, part, side_number, before)
}

/// Writes all parts.
fn put_parts(alloc: Global, out: &mut String, parts: &[Part]) -> Result<(), AllocError>
    ensures ok { OnOk result ((text : List ℕ) × AreTexts IsPartText (numbered 1 0 parts.now) text × (string_bytes out.new ≡ string_bytes out.old ++ text)) }
{
    let mut before: usize = 0;
    'parts: for (at, part) in parts.iter().enumerate() {
        put_part(alloc, out, part, at + 1, before)?;
        before = before.saturating_add(count_in(part));
    }
    Ok(())
}

/// What is found as one page, which asks for nothing else and runs no script, with the lines of the files around what differs.
///
/// # Errors
/// 21: memory is refused.
pub fn html_text(alloc: Global, found: &Findings) -> Result<String, AllocError>
    ensures ok { IfOk result (λ text. IsHtml found.now (string_bytes text)) }
{
    let mut out = String::new(alloc);
    out.push_str(HEAD)?;
    put_title(&mut out, found)?;
    out.push_str(STYLE)?;
    out.push_str("</style>\n</head>\n<body>\n")?;
    put_header(&mut out, found)?;
    put_links(&mut out, &found.parts)?;
    out.push_str("<main>\n")?;
    put_parts(alloc, &mut out, &found.parts)?;
    out.push_str("</main>\n</body>\n</html>\n")?;
    Ok(out)
}
