//! Two theorems, no code: a text has at most one reading, and bytes mean at most one list of documents. `MeansAlone` in
//! `IsCanonicalText` (`yaml_canon`) cites them. The readers and `law_going_on` cite their lemmas.
#![tactic(auto)]

pub mod laws;
