//! The handles of a document's tags.
ghost use Rattle.std.specs.Prelude.{◌≡◌, ℕ, List, map, bytes_eq, IfOk, IfErr, is_some, false};
ghost use Rattle.std.specs.Option.{option_map};
ghost use Rattle.std.specs.BTreeMap.{get_by};
ghost use Rattle.std.specs.Ordering.{nat_cmp};
ghost use Rattle.std.specs.Cmp.Lexicographic.{slice_cmp};
ghost use Rattle.std.specs.Map.{lookup};
ghost use Rattle.std.proofs.Props.{props};
ghost use Rattle.yaml_text.specs.declared.fault.Fault.TheVariants as fault;
ghost use Rattle.yaml_mark.specs.PrefixModel.{bytes_of, decoded_of};
ghost use Rattle.yaml_mark.specs.Prefixes.{IsWhole, StandFor};

use crate::decoded::{Decoded, Prefix, decode_prefix};
use std::alloc::Global;
use std::collections::BTreeMap;
use yaml_text::fault::Fault;

/// The handles that a document's directives bind, each with its prefix (YAML 1.2.2, 6.8.2).
///
/// A prefix is decoded when it is bound, and it is told then whether its bytes are a text, since many tags may use it.
#[derive(Drop)]
pub struct Handles<'a> {
    bindings: Vec<(&'a str, &'a str)>,
    prefixes: BTreeMap<&'a str, Decoded<'a>>,
    ghost found: { (q : List ℕ) → StandFor (option_map decoded_of (get_by (λ k. slice_cmp nat_cmp q k.now) prefixes)) (lookup (bytes_eq q) (map (λ b. (b.0.now, b.1.now)) bindings.items)) } by { Prim.hlevel props },
}

impl<'a> Handles<'a> {
    ghost use Rattle.std.specs.Prelude.{[], ◌∷◌, ◌++◌};
    ghost use Rattle.yaml_mark.specs.HandlesModel.{bindings_of};

    /// No handles.
    pub(crate) fn new(alloc: Global) -> Handles<'a>
        ensures { bindings_of result ≡ [] }
    {
        Handles {
            bindings: Vec::new(alloc),
            prefixes: BTreeMap::new(alloc),
        }
    }

    /// The decoded prefix that a handle is bound to.
    pub(crate) fn get(&self, handle: &str) -> Option<Prefix<'_>>
        ensures { StandFor (option_map bytes_of result) (lookup (bytes_eq handle.now) (bindings_of self.now)) }
    {
        match self.prefixes.get(handle) {
            Some(kept) => Some(kept.prefix()),
            None => None,
        }
    }

    /// Whether a handle is bound.
    pub(crate) fn binds(&self, handle: &str) -> bool
        ensures { result ≡ is_some (lookup (bytes_eq handle.now) (bindings_of self.now)) }
    {
        self.get(handle).is_some()
    }

    /// The same with one more handle, which is not bound yet.
    pub(crate) fn bind(
        self,
        alloc: Global,
        handle: &'a str,
        prefix: &'a str,
    ) -> Result<Handles<'a>, Fault>
        requires whole { IsWhole prefix.now }
        requires free { is_some (lookup (bytes_eq handle.now) (bindings_of self)) ≡ false }
        ensures more { IfOk result (λ more. bindings_of more ≡ bindings_of self.entry ++ (handle.now, prefix.now) ∷ []) }
        ensures err { IfErr result (λ e. e ≡ fault.OutOfMemory) }
    {
        let Handles {
            mut bindings,
            mut prefixes,
        } = self;
        let kept = decode_prefix(alloc, prefix)?;
        prefixes.insert(handle, kept)?;
        bindings.push((handle, prefix))?;
        Ok(Handles { bindings, prefixes })
    }
}
