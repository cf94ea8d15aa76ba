//! The level at which nodes are read.

use yaml_mark::handles::Handles;
use yaml_text::context::Ctx;

/// What all nodes of one level have in common: the handles of their document, the indentation of which none may have less (`n` of
/// the productions), the context (`c`), and how many collections may be open in each, one inside another.
#[derive(Clone, Copy)]
pub struct Level<'h, 'a> {
    pub handles: Option<&'h Handles<'a>>,
    pub least: usize,
    pub context: Ctx,
    pub room: u32,
}
