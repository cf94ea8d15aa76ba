//! The commands `show` and `git`: files as `show` writes them, why one is not shown, what git passes to an external diff, and the differences
//! of the two files or the changed lines of what `show` writes.
#![tactic(auto)]

mod asked;
mod differences;
mod git;
mod git_show;
mod heads;
mod page;
mod show;
mod targets;

pub use asked::{GitAsked, Pair, Side, git_asked};
pub use git::git_text;
pub use page::put_page;
pub use show::{put_unshown, show_files};
