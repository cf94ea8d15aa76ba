//! Parts of a page: what two files have differently.
ghost use Rattle.std.specs.Prelude.{◌≡◌, IfOk, string_bytes};
ghost use Rattle.review_reports.specs.Parts.{ListsAll, IsShown, ShowsLines, AreParts, IsPartsText};

use crate::findings::differences_found;
use crate::pages::page_text;
use review_formats::{Finding, Findings, Part, Shown};
use review_lines::Listed;
use review_text::options::{Diff, Page};
use review_text::put_visible;
use std::alloc::{AllocError, Global};
use std::str;

/// What two files of these names have differently, of a list: its differences and then the pairs of items that moved.
///
/// # Errors
/// 21: memory is refused.
pub fn list_found(
    alloc: Global,
    listed: &Listed,
    left: &str,
    right: &str,
) -> Result<Vec<Finding>, AllocError>
    ensures ok { IfOk result (λ list. ListsAll left.now right.now listed.now list.items) }
{
    let mut list = differences_found(alloc, left, right, &listed.lines)?;
    let mut moves = differences_found(alloc, left, right, &listed.moves)?;
    list.append(&mut moves)?;
    Ok(list)
}

/// A file of which lines are shown, with escapes for the characters that would not be seen.
fn shown_of(alloc: Global, name: &str, bytes: &[u8]) -> Result<Shown, AllocError>
    ensures ok { IfOk result (IsShown name.now bytes.now) }
{
    let mut text = String::new(alloc);
    put_visible(&mut text, str::from_utf8(bytes).unwrap_or(""))?;
    Ok(Shown {
        name: name.to_string(alloc)?,
        text,
    })
}

/// The lines of two files of these names, if the page shows them.
///
/// # Errors
/// 21: memory is refused.
pub fn lines_shown(
    alloc: Global,
    page: Page,
    left_name: &str,
    left: &[u8],
    right_name: &str,
    right: &[u8],
) -> Result<Option<(Shown, Shown)>, AllocError>
    ensures ok { IfOk result (ShowsLines page left_name.now left.now right_name.now right.now) }
{
    if page != Page::Html {
        return Ok(None);
    }
    let first = shown_of(alloc, left_name, left)?;
    let second = shown_of(alloc, right_name, right)?;
    Ok(Some((first, second)))
}

/// What two files or folders have differently, of which these are the parts.
fn parts_found(alloc: Global, asked: &Diff<'_>, parts: Vec<Part>) -> Result<Findings, AllocError>
    ensures ok { IfOk result (AreParts asked.now.left.now asked.now.right.now parts.items) }
{
    Ok(Findings {
        command: "diff",
        names: Some((asked.left.to_string(alloc)?, asked.right.to_string(alloc)?)),
        parts,
    })
}

/// What two files or folders have differently as a page.
///
/// # Errors
/// 21: memory is refused.
pub fn parts_text(
    alloc: Global,
    asked: &Diff<'_>,
    page: Page,
    parts: Vec<Part>,
) -> Result<String, AllocError>
    ensures ok { IfOk result (λ text. IsPartsText asked.now.left.now asked.now.right.now page parts.items (string_bytes text)) }
{
    page_text(alloc, page, &parts_found(alloc, asked, parts)?)
}
