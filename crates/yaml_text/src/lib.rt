//! Checked texts and their characters, events, faults and limits; reading a whole input (`gather`); words of contracts that several
//! calls share.
#![tactic(auto)]

pub mod chars;
pub mod class;
pub mod context;
pub mod core_tag;
pub mod counted;
pub mod digit;
pub mod event;
pub mod fault;
pub mod front;
pub mod gathering;
pub mod limits;
pub mod lines;
pub mod places;
pub mod side;
pub mod text_laws;

pub use chars::Chars;
pub use context::Ctx;
pub use counted::Counted;
pub use event::{Event, EventTag, Style};
pub use fault::Fault;
pub use gathering::gather;
pub use side::Side;
