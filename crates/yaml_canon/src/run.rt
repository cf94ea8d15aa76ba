//! Reading a stream and writing its canonical text page by page.
ghost use Rattle.std.specs.Prelude.{◌≡◌, ◌<◌, ◌-◌, ◌^◌, map, OnOk, IfErr};
ghost use Rattle.yaml_text.specs.CountedModel.{faults_of};
ghost use Rattle.yaml_spell.specs.Documents.{arranged_bytes};
ghost use Rattle.yaml_spell.specs.RankedNodes.{Rooted, tree_of};
ghost use Rattle.yaml_spell.specs.NamesView.{ranks_in};
ghost use Rattle.yaml_text.specs.Writers.{Printed, Broken};
ghost use Rattle.yaml_canon.specs.FaultPlaces.{TellsPlace, TellsReadPlace};
ghost use Rattle.yaml_canon.specs.Runs.{WritesCanonical, WriteRefuses, RunsWhole, RunFails};

use crate::target::{Target, spell_stream};
use std::alloc::Global;
use std::io::{Read, Write};
use yaml_spell::names::Names;
use yaml_spell::page::Page;
use yaml_spell::ranked::RankedNodes;
use yaml_spell::spell::{ranked_len, write_ranked};
use yaml_text::counted::Counted;
use yaml_text::fault::Fault;
use yaml_text::gather;
use yaml_text::limits::text_limit;

/// Writes the text of the documents of these roots page by page, and flushes. It takes no memory,
/// and fails as the writer does (23).
fn write_pages<I: Copy, V: RankedNodes<I>, W: Write>(
    view: &V,
    names: &mut Names,
    roots: &[I],
    out: &mut Counted<W>,
) -> Result<(), Fault>
    requires rooted { Rooted V.stands V.count V.number view.now roots.now }
    requires long { ranks_in names.old ≡ V.count view.now }
    requires few { faults_of out.old < 2 ^ 64 - 1 }
    ensures ok { OnOk result (Printed W.contents out.old out.new (arranged_bytes (map (tree_of V.tree V.number view.now) roots.now))) }
    ensures broken { IfErr result (λ _. Broken W.contents out.old out.new (arranged_bytes (map (tree_of V.tree V.number view.now) roots.now))) }
    ensures err { IfErr result (λ fault. fault ≡ Fault.WriteFault) }
{
    let mut page = Page::new();
    write_ranked(view, names, roots, &mut page, out)?;
    page.send(out)?;
    match out.flush() {
        Ok(()) => Ok(()),
        Err(_) => Err(Fault::WriteFault),
    }
}

impl<W: Write> Target for Counted<W> {
    ghost use Rattle.std.specs.Prelude.{◌<◌, ◌-◌, ◌^◌};
    ghost use Rattle.yaml_text.specs.CountedModel.{faults_of};
    ghost use Rattle.yaml_text.specs.Writers.{Printed, Broken};

    type Answer = ();

    ghost same = { λ _ _. Unit {0} };

    ghost ready = { λ out. faults_of out < 2 ^ 64 - 1 };

    ghost took = { λ old text new _. Printed W.contents old new text };

    ghost broke = { λ old text new. Broken W.contents old new text };

    /// Writes the text. Each growth is made before the first byte goes out.
    fn put<I: Copy, V: RankedNodes<I>>(
        &mut self,
        alloc: Global,
        view: &V,
        roots: &[I],
    ) -> Result<(), Fault> {
        let mut names = Names::new(alloc, view.len())?;
        ranked_len(view, &mut names, roots)?;
        write_pages(view, &mut names, roots, self)
    }

    ghost stays = { λ _. tt };
}

/// Writes the canonical text of the stream that these bytes are. Each growth is made before the
/// first byte goes out.
fn write_canonical<W: Write>(alloc: Global, bytes: &[u8], out: &mut Counted<W>) -> Result<(), Fault>
    requires few { faults_of out.old < 2 ^ 64 - 1 }
    ensures ok { OnOk result (WritesCanonical W.contents bytes.now out.old out.new) }
    ensures err { IfErr result (WriteRefuses W.contents bytes.now out.old out.new) }
    ensures placed { IfErr result (TellsPlace bytes.now) }
{
    spell_stream(alloc, bytes, out)
}

/// Reads a stream to its end, writes its canonical text in pieces of at most 4,096 bytes, and flushes the writer. The text is
/// never held as a whole. Both counts must be below the greatest u64.
///
/// # Errors
/// Before the first byte is written: those of `canonical` (1 to 21), and 22 if the reader fails, also by an interrupted call. 23
/// if the writer fails or takes no byte of a piece. The writer then has a beginning of the text. If the input is longer than the
/// limit, one byte more than the limit is read. 22 adds one to the reader's count, 23 to the writer's.
pub fn run_canonical<R: Read, W: Write>(
    alloc: Global,
    input: &mut Counted<R>,
    out: &mut Counted<W>,
) -> Result<(), Fault>
    requires few_reads { faults_of input.old < 2 ^ 64 - 1 }
    requires few_writes { faults_of out.old < 2 ^ 64 - 1 }
    ensures ok { OnOk result (RunsWhole W.contents R.remaining input.old input.new out.old out.new) }
    ensures err { IfErr result (RunFails W.contents R.remaining input.old input.new out.old out.new) }
    ensures placed { IfErr result (TellsReadPlace R.remaining input.old input.new) }
{
    let bytes = gather(alloc, input, text_limit())?;
    write_canonical(alloc, &bytes, out)
}
