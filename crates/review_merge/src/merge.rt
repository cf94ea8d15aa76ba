//! The command `merge3`.
ghost use Rattle.std.specs.Prelude.{◌≡◌, ◌<◌, ◌≤◌, ◌-◌, ◌^◌, ◌++◌, ◌↔◌, ℕ, List, [], ◌∷◌, Some, None, max, cond, codes, bytes_eq, string_bytes, IsTrue, IfOk, IfErr};
ghost use Rattle.std.specs.Option.{is_some, option_map, unwrap_or};
ghost use Rattle.yaml_text.specs.CountedModel.{faults_of};
ghost use Rattle.yaml_canon.specs.Written.{ShowsStreams};
ghost use Rattle.review_files.specs.Named.{ReadsNamed};
ghost use Rattle.review_text.specs.declared.options.Form.TheVariants.{Line};
ghost use Rattle.review_files.specs.Told.{TellsFaults};
ghost use Rattle.review_merge.specs.Lines.{sides_in, IsOutcomeText};
ghost use Rattle.review_merge.specs.Merges.{no_merge_status, ReadsResult, HaveBytes, TellsMerge, IsAskedText, IsMergeText, HasSources, MergeTells};
ghost use Rattle.review_merge.specs.Refusals.{FilesNotRead, MergeRefuses, NotRead, OneNotRead, TellsEach, TellsRejected, TellsTooMany, TellsWhy, all_names, input_count, or_none, result_name};

use crate::judge::{judge, roots_of, verdict_of};
use crate::lines::{Sources, text_of};
use crate::print::Print;
use review_files::files::read_named;
use review_files::rejected::{Named, put_no_bytes, put_rejection};
use review_files::unread::{Unread, greater};
use review_text::options::Form;
use std::alloc::Global;
use std::io::{Read, Write};
use yaml_canon::ranked_streams;
use yaml_command::shelf::Shelf;
use yaml_command::streams::write_out;
use yaml_conflicts::{Outcome, Room, Roots};
use yaml_store_rank::RankedForests;
use yaml_text::counted::Counted;
use yaml_text::fault::Fault;

/// The name of standard input.
const INPUT: &str = "-";

const GOOD: u8 = 0;

const BAD: u8 = 1;

/// The status of a file that is rejected, and of streams of which not all places are looked at.
const REJECTED: u8 = 2;

/// How many places are looked at that both sides changed.
const PLACES: usize = 1_000_000;

/// What is printed where these were not all, and nothing was found at them.
const TOO_MANY: &str =
    "yamlreview: merge3: unknown: both sides changed more than 1,000,000 places, counted once for each path that aliases make\n";

/// The files of a merge, by their names. `-` is standard input.
#[derive(Clone, Copy)]
pub struct Names<'n> {
    pub base: &'n str,
    pub ours: &'n str,
    pub theirs: &'n str,
    /// What was made of them, if it is to be judged.
    pub result: Option<&'n str>,
}

/// Why nothing is said of a merge.
#[derive(Drop)]
pub enum NoMerge {
    /// Two files are standard input, which is read once.
    OneInput,
    /// A file is not read or is rejected, or not all places were looked at: what is printed, and the status.
    Told(String, u8),
    /// The output fails, or memory is refused.
    Fault(Fault),
}

/// The bytes of the base, of ours, of theirs and of the result, which is empty if there is none.
#[derive(Drop)]
struct Bytes {
    base: Vec<u8>,
    ours: Vec<u8>,
    theirs: Vec<u8>,
    result: Vec<u8>,
}

/// 1 if a name is that of standard input.
fn input_count(name: &str) -> u8
    ensures value { result ≡ cond (bytes_eq name.now (codes "-")) 1 0 }
    ensures most { result ≤ 1 }
{
    if name == INPUT { 1 } else { 0 }
}

/// The same of a name that may be left out.
fn result_count(name: Option<&str>) -> u8
    ensures value { result ≡ input_count (or_none (option_map (λ n. n.now) name.entry)) }
    ensures most { result ≤ 1 }
{
    match name {
        Some(name) => input_count(name),
        None => 0,
    }
}

/// Whether two of the names are that of standard input.
fn has_two_inputs(names: &Names<'_>) -> bool
    ensures { IsTrue result ↔ 1 < input_count (all_names names.now) }
{
    let base = input_count(names.base);
    let ours = input_count(names.ours);
    let theirs = input_count(names.theirs);
    let result = result_count(names.result);
    base + ours + theirs + result > 1
}

/// The status, or that of a file that is rejected if it is less.
fn at_least(status: u8) -> u8
    ensures { result ≡ max status 2 }
{
    if status < REJECTED { REJECTED } else { status }
}

/// What is printed of a file that is not read.
fn not_read(alloc: Global, name: &str, unread: Unread) -> NoMerge
    ensures status { 2 ≤ no_merge_status result }
    ensures told { TellsWhy name.now unread result }
{
    let mut text = String::new(alloc);
    match put_no_bytes(alloc, &mut text, name, unread, Form::Line) {
        Ok(status) => NoMerge::Told(text, at_least(status)),
        Err(_) => NoMerge::Fault(Fault::OutOfMemory),
    }
}

/// All of a file.
fn bytes_of<S: Shelf, R: Read>(
    shelf: &S,
    alloc: Global,
    name: &str,
    input: &mut R,
) -> Result<Vec<u8>, NoMerge>
    ensures ok { IfOk result (λ v. ReadsNamed (S.holds shelf.now) R.remaining name.now input.old input.new v.items) }
    ensures err { IfErr result (λ none. 2 ≤ no_merge_status none) }
    ensures why { IfErr result (NotRead (S.holds shelf.now) R.remaining name.now input.old input.new) }
{
    match read_named(shelf, alloc, name, input) {
        Ok(bytes) => Ok(bytes),
        Err(unread) => Err(not_read(alloc, name, unread)),
    }
}

/// All of the result, or no bytes if there is none.
fn result_of<S: Shelf, R: Read>(
    shelf: &S,
    alloc: Global,
    name: Option<&str>,
    input: &mut R,
) -> Result<Vec<u8>, NoMerge>
    ensures ok { IfOk result (λ v. ReadsResult (S.holds shelf.now) R.remaining (option_map (λ n. n.now) name.entry) input.old input.new v.items) }
    ensures err { IfErr result (λ none. 2 ≤ no_merge_status none) }
    ensures why { IfErr result (OneNotRead (S.holds shelf.now) R.remaining (or_none (option_map (λ n. n.now) name.entry)) input.old input.new) }
{
    match name {
        Some(name) => bytes_of(shelf, alloc, name, input),
        None => Ok(Vec::new(alloc)),
    }
}

/// All of the files, one after another.
fn read_files<S: Shelf, R: Read>(
    shelf: &S,
    alloc: Global,
    names: &Names<'_>,
    input: &mut R,
) -> Result<Bytes, NoMerge>
    ensures ok { IfOk result (HaveBytes (S.holds shelf.now) R.remaining names.now input.old input.new) }
    ensures err { IfErr result (λ none. 2 ≤ no_merge_status none) }
    ensures why { IfErr result (FilesNotRead (S.holds shelf.now) R.remaining names.now input.old input.new) }
{
    if has_two_inputs(names) {
        return Err(NoMerge::OneInput);
    }
    let base = bytes_of(shelf, alloc, names.base, input)?;
    let ours = bytes_of(shelf, alloc, names.ours, input)?;
    let theirs = bytes_of(shelf, alloc, names.theirs, input)?;
    let result = result_of(shelf, alloc, names.result, input)?;
    Ok(Bytes {
        base,
        ours,
        theirs,
        result,
    })
}

/// Writes why a file of these bytes is rejected, if it is, and answers its status.
fn put_one(alloc: Global, out: &mut String, name: &str, bytes: Vec<u8>) -> Result<u8, Fault>
    ensures ok { IfOk result (λ status. (text : List ℕ) × (string_bytes out.new ≡ string_bytes out.old ++ text) × TellsFaults Line name.now bytes.items text status) }
    ensures err { IfErr result (λ fault. fault ≡ Fault.OutOfMemory) }
{
    let answer = Ok(bytes);
    let file = Named {
        name,
        answer: &answer,
    };
    put_rejection(alloc, out, file, Form::Line)
}

/// The name of the result, or no text if there is none.
fn result_name<'n>(names: &Names<'n>) -> &'n str
    ensures { result.now ≡ unwrap_or (result_name names.now) [] }
{
    names.result.unwrap_or("")
}

/// Writes why files are rejected, of each that is, and answers the greatest status.
fn put_rejections(
    alloc: Global,
    out: &mut String,
    names: &Names<'_>,
    bytes: Bytes,
) -> Result<u8, Fault>
    ensures ok { IfOk result (λ status. (text : List ℕ) × (string_bytes out.new ≡ string_bytes out.old ++ text) × TellsEach names.now bytes text status) }
    ensures err { IfErr result (λ fault. fault ≡ Fault.OutOfMemory) }
{
    let base = put_one(alloc, out, names.base, bytes.base)?;
    let ours = put_one(alloc, out, names.ours, bytes.ours)?;
    let theirs = put_one(alloc, out, names.theirs, bytes.theirs)?;
    let result = put_one(alloc, out, result_name(names), bytes.result)?;
    Ok(greater(greater(base, ours), greater(theirs, result)))
}

/// What is printed of files of which no merge is judged. Where each of them is accepted by itself, memory is refused for all, and that
/// is what is reported.
fn rejected(alloc: Global, names: &Names<'_>, bytes: Bytes) -> NoMerge
    ensures status { 2 ≤ no_merge_status result }
    ensures told { TellsRejected names.now bytes result }
{
    let mut text = String::new(alloc);
    match put_rejections(alloc, &mut text, names, bytes) {
        Ok(status) => {
            if status == 0 {
                NoMerge::Fault(Fault::OutOfMemory)
            } else {
                NoMerge::Told(text, at_least(status))
            }
        }
        Err(_) => NoMerge::Fault(Fault::OutOfMemory),
    }
}

/// What is printed where places are left that were not looked at.
fn too_many(alloc: Global) -> NoMerge
    ensures status { 2 ≤ no_merge_status result }
    ensures told { TellsTooMany result }
{
    match TOO_MANY.to_string(alloc) {
        Ok(text) => NoMerge::Told(text, REJECTED),
        Err(_) => NoMerge::Fault(Fault::OutOfMemory),
    }
}

/// How much is looked at: one line at least, without which it is not known whether there is one.
fn room_of(lines: usize) -> Room {
    Room {
        places: PLACES,
        lines: if lines == 0 { 1 } else { lines },
    }
}

/// What is found, and its lines.
#[derive(Drop)]
struct Told {
    answer: Option<bool>,
    text: String,
}

/// The documents of the base, of ours, of theirs and of the result. Of an error it is told elsewhere which files are rejected.
fn forests_of(alloc: Global, bytes: &Bytes) -> Result<RankedForests<'_>, Fault>
    ensures { IfOk result (ShowsStreams (bytes.now.base.items ∷ bytes.now.ours.items ∷ bytes.now.theirs.items ∷ bytes.now.result.items ∷ [])) }
{
    let others = [
        bytes.ours.as_slice(),
        bytes.theirs.as_slice(),
        bytes.result.as_slice(),
    ];
    match ranked_streams(alloc, &bytes.base, &others) {
        Ok(forests) => Ok(forests),
        Err(_) => Err(Fault::OutOfMemory),
    }
}

/// The bytes of the result, if it is given.
fn given_bytes(bytes: &[u8], given: bool) -> Option<&[u8]>
    ensures { option_map (λ it. it.now) result ≡ cond given (Some bytes.now) None }
{
    if given { Some(bytes) } else { None }
}

/// The bytes whose nodes have places.
fn sources_of(bytes: &Bytes, given: bool) -> Sources<'_>
    ensures { HasSources bytes.now given result }
{
    Sources {
        base: &bytes.base,
        ours: &bytes.ours,
        theirs: &bytes.theirs,
        result: given_bytes(&bytes.result, given),
    }
}

/// The lines of an outcome, if some are asked for.
fn lines_of(
    alloc: Global,
    forests: &RankedForests<'_>,
    roots: &Roots<'_>,
    outcome: &Outcome,
    sources: Sources<'_>,
    print: Print,
) -> Result<String, Fault>
    ensures { IfOk result (λ out. IsAskedText print.lines (IsOutcomeText forests.now print (is_some sources.entry.result) roots.now (sides_in roots.now sources.entry) outcome.now (string_bytes out)) (string_bytes out)) }
{
    if print.lines == 0 {
        return Ok(String::new(alloc));
    }
    text_of(alloc, forests, roots, outcome, sources, print)
}

/// What is found of the files' bytes, and its lines.
fn told_of(alloc: Global, bytes: &Bytes, given: bool, print: Print) -> Result<Told, Fault>
    ensures tells { IfOk result (λ told. TellsMerge given bytes.now.base.items bytes.now.ours.items bytes.now.theirs.items bytes.now.result.items told.answer) }
    ensures shows { IfOk result (λ told. IsMergeText given print bytes.now.base.items bytes.now.ours.items bytes.now.theirs.items bytes.now.result.items told.answer (string_bytes told.text)) }
{
    let forests = forests_of(alloc, bytes)?;
    forests.laws();
    let roots = roots_of(&forests, given);
    let outcome = judge(alloc, &forests, &roots, given, room_of(print.lines))?;
    let answer = verdict_of(&outcome);
    let sources = sources_of(bytes, given);
    let text = lines_of(alloc, &forests, &roots, &outcome, sources, print)?;
    Ok(Told { answer, text })
}

/// The status of an answer.
fn status_of(answer: bool) -> u8
    ensures { result ≡ cond answer 0 1 }
{
    if answer { GOOD } else { BAD }
}

/// Writes a line for each path at which ours and theirs conflict or, if a result is given, at which it is not their merge, at most so
/// many. Answers 0 exactly if a merge exists or the result is one, and else 1. Where that is not known, `NoMerge` says why.
pub fn merge3<S: Shelf, R: Read, W: Write>(
    shelf: &S,
    alloc: Global,
    names: &Names<'_>,
    print: Print,
    input: &mut R,
    out: &mut Counted<W>,
) -> Result<u8, NoMerge>
    requires { faults_of out.old < 2 ^ 64 - 1 }
    ensures tells { IfOk result (MergeTells (S.holds shelf.now) R.remaining W.contents names.now print input.old input.new out.old out.new) }
    ensures none { IfErr result (λ none. 2 ≤ no_merge_status none) }
    ensures refuses { IfErr result (MergeRefuses (S.holds shelf.now) R.remaining W.contents names.now input.old input.new out.old out.new) }
{
    let bytes = read_files(shelf, alloc, names, input)?;
    let given = names.result.is_some();
    let told = match told_of(alloc, &bytes, given, print) {
        Ok(told) => told,
        Err(_) => return Err(rejected(alloc, names, bytes)),
    };
    let Some(answer) = told.answer else {
        return Err(too_many(alloc));
    };
    match write_out(out, told.text.as_bytes()) {
        Ok(()) => Ok(status_of(answer)),
        Err(fault) => Err(NoMerge::Fault(fault)),
    }
}
