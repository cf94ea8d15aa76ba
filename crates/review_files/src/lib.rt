//! Files by their names: reading them, and telling why one is not read or is rejected.
#![tactic(auto)]

pub mod files;
pub mod rejected;
pub mod telling;
pub mod unread;
