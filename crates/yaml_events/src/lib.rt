//! The notation of yaml-test-suite for events: one line for each event, written and read.
#![tactic(auto)]

mod fault;
mod fill;
mod length;
mod line;
mod matching;
mod measure;
mod name;
mod page;
mod parts;
mod reader;
mod sink;
mod tag;
mod value;
mod writer;

pub use fault::EventFault;
pub use fill::{fill_by_pages, fill_events};
pub use length::{longest_line, surely_fits};
pub use matching::is_event_text;
pub use measure::text_len;
pub use page::{PAGE, page_for};
pub use parts::{push_properties, push_scalar_line};
pub use reader::read_event_text;
pub use writer::{push_line, write_events};
