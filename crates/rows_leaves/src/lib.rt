//! Test cases of calls that no run of a program shows: checked texts and faults, scalars, comments, directives, tags and anchors, the
//! core schema, the event notation, `is_json` rule by rule of RFC 8259, and edit scripts.
#![tactic(auto)]

#[cfg(test)]
mod arms;
#[cfg(test)]
mod block;
#[cfg(test)]
mod calls;
#[cfg(test)]
mod comments;
#[cfg(test)]
mod core_rows;
#[cfg(test)]
mod core_tags;
#[cfg(test)]
mod depth;
#[cfg(test)]
mod directives;
#[cfg(test)]
mod event_lines;
#[cfg(test)]
mod faults;
#[cfg(test)]
mod floats;
#[cfg(test)]
mod flow;
#[cfg(test)]
mod fronts;
#[cfg(test)]
mod ints;
#[cfg(test)]
mod json_rows;
#[cfg(test)]
mod long;
#[cfg(test)]
mod mark_names;
#[cfg(test)]
mod mark_rows;
#[cfg(test)]
mod mark_tags;
#[cfg(test)]
mod numbers;
#[cfg(test)]
mod scalar_rows;
#[cfg(test)]
mod script_rows;
#[cfg(test)]
mod scripts;
#[cfg(test)]
mod spell;
#[cfg(test)]
mod strings;
#[cfg(test)]
mod table;
#[cfg(test)]
mod texts;
