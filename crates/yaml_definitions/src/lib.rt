//! The definitions of YAML on which every claim rests, and theorems about them. No code.
//!
//! The proofs are about definitions. So you need to trust that these definitions say what YAML 1.2.2 says. A claim rests on the
//! definitions that it names, on those that these name, and so on. Other definitions only help the proofs: if one of them were
//! wrong, the claim would still hold. `docs/proof/DEFINITIONS.md` lists the claims and how many definitions each rests on.
//! `tools/closure` lists the definitions: those of this crate, and a few of the crates above, which name types of the code.
//!
//! Where they are:
//! - `specs/grammar`: the productions of chapters 5 to 9. Each has the standard's name, with its number and section before it, or
//!   "no production". A production is a relation of two places of a text, and of a value if it has one. `Rules` has the ways to
//!   combine them, `Reading` what bytes are read as.
//! - `specs/model`: texts, events, trees, equality and order of trees, tags and the core schema (chapters 3 and 10).
//! - `specs/canonical`: which nodes have an anchor, and how documents are written.
//! - `specs/Laws`, `specs/grammar/Laws`: the theorems. The function of the same name in `laws` and `grammar_laws` proves each.
#![tactic(auto)]

pub mod grammar_laws;
pub mod laws;
