//! The command `show`.
ghost use Rattle.std.specs.Prelude.{◌≡◌, ◌<◌, ◌-◌, ◌^◌, ◌++◌, ℕ, List, true, codes, map, IfOk, IfErr, OnOk, string_bytes};
ghost use Rattle.yaml_text.specs.CountedModel.{faults_of};
ghost use Rattle.yaml_text.specs.Writers.{Printed};
ghost use Rattle.yaml_command.specs.Printing.{PrintFails};
ghost use Rattle.review_text.specs.Terminal.{terminal};
ghost use Rattle.review_git.specs.ShownFiles.{IsText, HasNone, shown_output, shown_status, reports_warnings, Warns, TellsWarnings, TellsUnshown, TellsNotRead, PrintsSource, CutsText, ShowsText, CutsShown, ShowsBytes, CutsBytes, ShowsFile, CutsFile, ShowsFiles};
ghost use Rattle.review_faults.specs.Again.{CannotRead, CannotTell};
ghost use Rattle.review_args.specs.declared.words.Format.{Format};
ghost use Rattle.review_git.specs.Unshown.{too_long, unlike, TellsRejected, PutsUnshown, CannotTellNone};

use review_args::words::LINES;
use review_args::{Format, Show};
use review_faults::{list_warnings, put_fault, put_no_json, put_warnings};
use review_files::files::read_named;
use review_files::rejected::put_no_bytes;
use review_files::telling::{put_fault_line, put_line, tell_bare};
use review_files::unread::{Unread, greater};
use review_text::options::Form;
use review_text::put_shown;
use std::alloc::{AllocError, Global};
use std::io::{Read, Write};
use yaml_command::shelf::Shelf;
use yaml_command::streams::write_out;
use yaml_show::{Unshown, show, show_as_read, show_json, show_sharing};
use yaml_text::counted::Counted;
use yaml_text::fault::Fault;

const DONE: u8 = 0;

/// The status of a file that is not shown.
const REJECTED: u8 = 2;

/// The status of a file that is not as it would be written.
const UNLIKE: u8 = 1;

/// The status of a file that is not shown because there is a warning.
const WARNED: u8 = 1;

/// What is shown of the bytes of a file.
fn text_of(alloc: Global, bytes: &[u8], format: Format) -> Result<String, Unshown>
    ensures ok { IfOk result (λ text. IsText format bytes.now (string_bytes text)) }
    ensures err { IfErr result (HasNone format bytes.now) }
{
    match format {
        Format::Yaml => match show(alloc, bytes) {
            Ok(text) => Ok(text),
            Err(fault) => Err(Unshown::Rejected(fault)),
        },
        Format::AsRead => match show_as_read(alloc, bytes) {
            Ok(text) => Ok(text),
            Err(fault) => Err(Unshown::Rejected(fault)),
        },
        Format::Sharing => match show_sharing(alloc, bytes) {
            Ok(text) => Ok(text),
            Err(fault) => Err(Unshown::Rejected(fault)),
        },
        Format::Json => show_json(alloc, bytes),
    }
}

/// Writes that the text of a file would be too long.
fn put_too_long(out: &mut String, name: &str) -> Result<(), AllocError>
    ensures ok { OnOk result (string_bytes out.new ≡ string_bytes out.old ++ too_long name.now) }
{
    put_shown(out, name)?;
    out.push_str(
        ": 20 TextTooLong: the text with aliases in place would have more than 67,108,864 bytes\n",
    )?;
    Ok(())
}

/// Writes why a file is rejected.
#[tactic(auto, using(review_faults::proofs::AgainLaws::memory_told))]
fn put_rejected(
    alloc: Global,
    out: &mut String,
    name: &str,
    bytes: &[u8],
    fault: Fault,
) -> Result<(), Fault>
    ensures ok { OnOk result ((text : List ℕ) × (string_bytes out.new ≡ string_bytes out.old ++ text) × TellsRejected name.now bytes.now fault text) }
    ensures err { IfErr result (CannotTell bytes.now fault) }
{
    match fault {
        Fault::TextTooLong => Ok(put_too_long(out, name)?),
        Fault::OutOfMemory => Ok(put_fault_line(out, name, Fault::OutOfMemory)?),
        fault => put_fault(alloc, out, name, bytes, fault, Form::Line),
    }
}

/// Writes that the JSON of a file would mean something else.
fn put_unlike(out: &mut String, name: &str) -> Result<(), AllocError>
    ensures ok { OnOk result (string_bytes out.new ≡ string_bytes out.old ++ unlike name.now) }
{
    put_shown(out, name)?;
    out.push_str(": the JSON would mean something else; this is a bug of yamlreview\n")?;
    Ok(())
}

/// Writes why a file is not shown.
///
/// # Errors
/// `OutOfMemory`. The bytes may be read again; of bytes that the reader rejects, the reader's.
pub fn put_unshown(
    alloc: Global,
    out: &mut String,
    name: &str,
    bytes: &[u8],
    why: Unshown,
) -> Result<(), Fault>
    ensures ok { OnOk result (PutsUnshown name.now bytes.now why (string_bytes out.old) (string_bytes out.new)) }
    ensures err { IfErr result (CannotTellNone bytes.now why) }
{
    match why {
        Unshown::Rejected(fault) => put_rejected(alloc, out, name, bytes, fault),
        Unshown::NoJson => put_no_json(alloc, out, name, bytes),
        Unshown::Unlike => Ok(put_unlike(out, name)?),
    }
}

/// Reports why a file is not shown, and answers the status.
fn tell_unshown<E: Write>(alloc: Global, name: &str, bytes: &[u8], why: Unshown, err: &mut E) -> u8
    requires { (format : Format) × HasNone format bytes.now why }
    ensures { TellsUnshown E.contents name.now bytes.now why err.old err.new result }
{
    let mut line = String::new(alloc);
    match put_unshown(alloc, &mut line, name, bytes, why) {
        Ok(()) => {
            put_line(&line, err);
            REJECTED
        }
        Err(fault) => tell_bare(fault, err),
    }
}

/// Reports why a file is not read, and answers the status.
fn tell_no_bytes<E: Write>(alloc: Global, name: &str, unread: Unread, err: &mut E) -> u8
    ensures { TellsNotRead E.contents name.now unread err.old err.new result }
{
    let mut line = String::new(alloc);
    match put_no_bytes(alloc, &mut line, name, unread, Form::Line) {
        Ok(status) => {
            put_line(&line, err);
            status
        }
        Err(fault) => tell_bare(fault, err),
    }
}

/// Writes the name of a file on a line of its own.
fn put_name(out: &mut String, name: &str) -> Result<(), AllocError>
    ensures ok { OnOk result (string_bytes out.new ≡ string_bytes out.old ++ (terminal name.now ++ codes "\n")) }
{
    put_shown(out, name)?;
    out.push_str("\n")?;
    Ok(())
}

/// What is printed of a file that is shown as this text, and the status. With `--check` it is the name of a file that is another text.
fn output_of(
    alloc: Global,
    name: &str,
    bytes: &[u8],
    text: String,
    is_check: bool,
) -> Result<(String, u8), Fault>
    ensures output { IfOk result (λ told. string_bytes told.0 ≡ shown_output is_check name.now bytes.now (string_bytes text)) }
    ensures status { IfOk result (λ told. told.1 ≡ shown_status is_check bytes.now (string_bytes text)) }
    ensures check { IfErr result (λ fault. is_check ≡ true) }
{
    if !is_check {
        return Ok((text, DONE));
    }
    let mut line = String::new(alloc);
    if bytes == text.as_bytes() {
        return Ok((line, DONE));
    }
    put_name(&mut line, name)?;
    Ok((line, UNLIKE))
}

/// Prints what there is to print of a file that is shown as this text, and answers the status.
fn put_text<W: Write>(
    alloc: Global,
    name: &str,
    bytes: &[u8],
    text: String,
    is_check: bool,
    out: &mut Counted<W>,
) -> Result<u8, Fault>
    requires { faults_of out.old < 2 ^ 64 - 1 }
    ensures printed { OnOk result (Printed W.contents out.old out.new (shown_output is_check name.now bytes.now (string_bytes text))) }
    ensures status { IfOk result (λ status. status ≡ shown_status is_check bytes.now (string_bytes text)) }
    ensures cut { IfErr result (CutsText W.contents is_check (shown_output is_check name.now bytes.now (string_bytes text)) out.old out.new) }
{
    match output_of(alloc, name, bytes, text, is_check) {
        Ok((output, status)) => match write_out(out, output.as_bytes()) {
            Ok(()) => Ok(status),
            Err(fault) => Err(fault),
        },
        Err(fault) => Err(fault),
    }
}

/// Prints a file that is not shown as it is, if that is asked for, and answers the status. Else the status is the one that is passed.
fn put_source<W: Write>(
    textconv: bool,
    bytes: &[u8],
    status: u8,
    out: &mut Counted<W>,
) -> Result<u8, Fault>
    requires { faults_of out.old < 2 ^ 64 - 1 }
    ensures ok { IfOk result (PrintsSource W.contents textconv bytes.now status out.old out.new) }
    ensures asked { IfErr result (λ fault. textconv ≡ true) }
    ensures cut { IfErr result (PrintFails W.contents out.old out.new bytes.now) }
{
    if !textconv {
        return Ok(status);
    }
    match write_out(out, bytes) {
        Ok(()) => Ok(DONE),
        Err(fault) => Err(fault),
    }
}

/// Whether the warnings of files are reported.
fn reports_warnings(asked: &Show<'_>) -> bool
    ensures { result ≡ reports_warnings asked.now }
{
    !asked.is_check && !asked.textconv
}

/// What `warn` prints of a file, and whether there is a warning.
#[tactic(auto, using(review_faults::proofs::AgainLaws::memory_alone, crate::proofs::WarnLaws::warns))]
fn warned(alloc: Global, name: &str, bytes: &[u8]) -> Result<(String, bool), Fault>
    ensures ok { IfOk result (λ told. Warns name.now bytes.now (string_bytes told.0) told.1) }
    ensures err { IfErr result (CannotRead bytes.now) }
{
    let warnings = list_warnings(alloc, bytes, &[], LINES)?;
    let mut text = String::new(alloc);
    put_warnings(alloc, &mut text, name, &warnings, Form::Line)?;
    Ok((text, !warnings.list.is_empty()))
}

/// Reports what `warn` prints of a file that is shown, if warnings are reported, and answers whether there is one.
fn tell_warnings<E: Write>(
    alloc: Global,
    named: (&str, &Show<'_>),
    bytes: &[u8],
    err: &mut E,
) -> Result<bool, Fault>
    requires { (text : List ℕ) × IsText named.1.now.format bytes.now text }
    ensures ok { IfOk result (TellsWarnings E.contents named.entry.1.now named.entry.0.now bytes.now err.old err.new) }
    ensures err { IfErr result (λ fault. (fault ≡ Fault.OutOfMemory) × (err.new ≡ err.old)) }
{
    let (name, asked) = named;
    if !reports_warnings(asked) {
        return Ok(false);
    }
    let (lines, has_one) = warned(alloc, name, bytes)?;
    put_line(&lines, err);
    Ok(has_one)
}

/// Shows a file as this text unless it has a warning and that is asked about, and answers its status. An error is that the output
/// fails.
fn show_text<W: Write, E: Write>(
    alloc: Global,
    named: (&str, &Show<'_>),
    bytes: &[u8],
    text: String,
    out: &mut Counted<W>,
    err: &mut E,
) -> Result<u8, Fault>
    requires few { faults_of out.old < 2 ^ 64 - 1 }
    requires text { IsText named.1.now.format bytes.now (string_bytes text) }
    ensures ok { IfOk result (ShowsText W.contents E.contents named.entry.1.now named.entry.0.now bytes.now (string_bytes text) out.old out.new err.old err.new) }
    ensures cut { IfErr result (CutsShown W.contents E.contents named.entry.1.now named.entry.0.now bytes.now (string_bytes text) out.old out.new err.old err.new) }
{
    let (name, asked) = named;
    match tell_warnings(alloc, named, bytes, err) {
        Ok(has_one) if has_one && asked.is_strict => Ok(WARNED),
        Ok(_) => put_text(alloc, name, bytes, text, asked.is_check, out),
        Err(fault) => Ok(tell_bare(fault, err)),
    }
}

/// Shows the bytes of a file, and answers its status. An error is that the output fails.
fn show_bytes<W: Write, E: Write>(
    alloc: Global,
    named: (&str, &Show<'_>),
    bytes: &[u8],
    out: &mut Counted<W>,
    err: &mut E,
) -> Result<u8, Fault>
    requires { faults_of out.old < 2 ^ 64 - 1 }
    ensures ok { IfOk result (ShowsBytes W.contents E.contents named.entry.1.now named.entry.0.now bytes.now out.old out.new err.old err.new) }
    ensures cut { IfErr result (CutsBytes W.contents E.contents named.entry.1.now named.entry.0.now bytes.now out.old out.new err.old err.new) }
{
    let (name, asked) = named;
    match text_of(alloc, bytes, asked.format) {
        Ok(text) => show_text(alloc, named, bytes, text, out, err),
        Err(why) => {
            let status = tell_unshown(alloc, name, bytes, why, err);
            put_source(asked.textconv, bytes, status, out)
        }
    }
}

/// Shows one file, and answers its status. An error is that the output fails.
fn show_file<S: Shelf, R: Read, W: Write, E: Write>(
    shelf: &S,
    alloc: Global,
    named: (&str, &Show<'_>),
    input: &mut R,
    out: &mut Counted<W>,
    err: &mut E,
) -> Result<u8, Fault>
    requires { faults_of out.old < 2 ^ 64 - 1 }
    ensures ok { IfOk result (ShowsFile (S.holds shelf.now) R.remaining W.contents E.contents named.entry.1.now named.entry.0.now input.old input.new out.old out.new err.old err.new) }
    ensures cut { IfErr result (CutsFile (S.holds shelf.now) R.remaining W.contents E.contents named.entry.1.now named.entry.0.now input.old input.new out.old out.new err.old err.new) }
{
    let (name, asked) = named;
    match read_named(shelf, alloc, name, input) {
        Ok(bytes) => show_bytes(alloc, (name, asked), &bytes, out, err),
        Err(unread) => Ok(tell_no_bytes(alloc, name, unread, err)),
    }
}

/// Shows each file, and goes on to the next one unless the output fails. The status is the greatest of all.
pub fn show_files<S: Shelf, R: Read, W: Write, E: Write>(
    shelf: &S,
    alloc: Global,
    asked: &Show<'_>,
    input: &mut R,
    out: &mut Counted<W>,
    err: &mut E,
) -> u8
    requires { faults_of out.old < 2 ^ 64 - 1 }
    ensures shows { ShowsFiles (S.holds shelf.now) R.remaining W.contents E.contents asked.now (map (λ s. s.now) asked.now.files.items) input.old input.new out.old out.new err.old err.new result }
{
    let files = asked.files.as_slice();
    let mut status = DONE;
    'files: for name in files {
        match show_file(shelf, alloc, (*name, asked), input, out, err) {
            Ok(answer) => status = greater(status, answer),
            Err(fault) => return greater(status, tell_bare(fault, err)),
        }
    }
    status
}
