//! What is told of a list as a whole.
ghost use Rattle.std.specs.Prelude.{◌≡◌, ◌++◌, IfOk, OnOk, OnErr};
ghost use Rattle.yaml_sum.specs.Summaries.{count_line, counts, list_line, list_status, summary, TellsText, Closes};

use crate::asked::Rules;
use crate::finding::DIFFERENT;
use crate::line::{push, push_name};
use crate::stop::greater;
use crate::told::Told;
use itoa::Buffer;
use std::alloc::AllocError;
use std::io::Write;
use yaml_spell::page::write_whole;
use yaml_text::counted::Counted;

/// The status of a list in which no line is one of a sum.
const UNUSABLE: u8 = 3;

/// Puts a line behind others that tells how many there are, if there are any.
fn push_count(line: &mut Vec<u8>, what: &str, count: usize) -> Result<(), AllocError>
    ensures ok { OnOk result (line.new.items ≡ line.old.items ++ count_line what.now count) }
{
    if count == 0 {
        return Ok(());
    }
    let mut digits = Buffer::new();
    push(line, b"yamlreview: ")?;
    push(line, what.as_bytes())?;
    push(line, digits.format(count).as_bytes())?;
    push(line, b"\n")
}

/// Puts a line behind others that tells this of the list of this name.
fn push_list(line: &mut Vec<u8>, list: &str, what: &str) -> Result<(), AllocError>
    ensures ok { OnOk result (line.new.items ≡ line.old.items ++ list_line list.now what.now) }
{
    push(line, b"yamlreview: ")?;
    push_name(line, list.as_bytes())?;
    push(line, what.as_bytes())
}

/// Puts the numbers behind others.
fn push_counts(line: &mut Vec<u8>, told: Told) -> Result<(), AllocError>
    ensures ok { OnOk result (line.new.items ≡ line.old.items ++ counts told) }
{
    push_count(line, "lines that are no sums: ", told.improper)?;
    push_count(line, "files without a sum: ", told.unread)?;
    push_count(line, "files with another sum: ", told.wrong)
}

/// Makes the lines that tell of a list as a whole, in place of what is held.
fn make_summary(line: &mut Vec<u8>, rules: Rules, list: &str, told: Told) -> Result<(), AllocError>
    ensures ok { OnOk result (line.new.items ≡ summary rules list.now told) }
{
    line.clear();
    if rules.is_silent {
        return Ok(());
    }
    if !told.has_sums {
        return push_list(line, list, ": no line is one of a sum\n");
    }
    push_counts(line, told)?;
    if rules.skips_missing && !told.is_verified {
        return push_list(line, list, ": no file has its sum\n");
    }
    Ok(())
}

/// The status of a list.
fn status_of(rules: Rules, told: Told) -> u8
    ensures { result ≡ list_status rules told }
{
    if !told.has_sums {
        return UNUSABLE;
    }
    let fails = (rules.is_strict && told.improper > 0)
        || (rules.skips_missing && !told.is_verified);
    greater(told.worst, if fails { DIFFERENT } else { 0 })
}

/// Writes lines, or a beginning of them where `err` fails: the status alone is then left to tell it.
fn tell_text<E: Write>(text: &[u8], err: &mut Counted<E>)
    ensures { TellsText E.contents text.now err.old err.new }
{
    if text.is_empty() {
        return;
    }
    match write_whole(err, text) {
        Ok(()) | Err(_) => {}
    }
}

/// Tells of a list as a whole, and answers the status. The lines are made in place of the bytes that are held.
pub(crate) fn close<E: Write>(
    rules: Rules,
    list: &str,
    told: Told,
    line: &mut Vec<u8>,
    err: &mut Counted<E>,
) -> Result<u8, AllocError>
    ensures ok { IfOk result (Closes E.contents rules list.now told err.old err.new) }
    ensures quiet { OnErr result (err.new ≡ err.old) }
{
    make_summary(line, rules, list, told)?;
    tell_text(line.as_slice(), err);
    Ok(status_of(rules, told))
}
