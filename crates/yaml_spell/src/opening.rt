//! How nodes begin, for other walks of ranked nodes than that of the canonical text.
ghost use Rattle.std.specs.Prelude.{◌≡◌, ◌<◌};
ghost use Rattle.yaml_definitions.specs.canonical.Spell.{serial_of_arranged};
ghost use Rattle.yaml_spell.specs.NamesView.{ranks_in, given_of, opening_number};
ghost use Rattle.yaml_spell.specs.RankedNodes.{Ready};
ghost use Rattle.yaml_spell.specs.Walked.{start, started, written};

use crate::names::{Names, Opening};
use crate::ranked::RankedNodes;
use crate::walk::{notice, start};

/// Begins a document: notes which of its nodes come again. What a walk from there on writes is the document's serialization tree.
pub fn begin_document<I: Copy, V: RankedNodes<I>>(view: &V, names: &mut Names, root: I)
    requires ready { Ready V.stands V.count view.now names.old }
    requires within { V.number root < V.count view.now }
    ensures long { ranks_in names.new ≡ ranks_in names.old }
    ensures serial { written (V.rank view.now) (V.tree view.now (V.number root)) (given_of names.new) ≡ serial_of_arranged (V.tree view.now (V.number root)) }
{
    view.tells();
    names.begin();
    notice(view, names, root);
}

/// How a node begins. A walk asks it of each node that it comes to, in writing order, and does not enter an alias.
pub fn open_node<I: Copy, V: RankedNodes<I>>(view: &V, names: &mut Names, id: I) -> Opening
    requires ready { Ready V.stands V.count view.now names.old }
    requires within { V.number id < V.count view.now }
    ensures opening { result ≡ start (V.rank view.now) (V.tree view.now (V.number id)) (given_of names.old) }
    ensures positive { 0 < opening_number result }
    ensures given { given_of names.new ≡ started (V.rank view.now) (V.tree view.now (V.number id)) (given_of names.old) }
    ensures long { ranks_in names.new ≡ ranks_in names.old }
{
    let short = view.short_len(id);
    start(names, short > 0, view.rank(id))
}
