//! The program `yamlreview`: where two YAML streams differ, and where and why a file is rejected.
#![tactic(auto)]

mod pipe;

use crate::pipe::{Messages, Output};
use review_command::arguments::{has_color, words_of};
use review_command::command::command;
use review_files::telling::tell_no_words;
use std::cell::Cell;
use std::io::IsTerminal;
use std::process::ExitCode;

fn main(rt: HostRuntime) -> ExitCode {
    let alloc = rt.alloc();
    // A pipe that is closed ends the program quietly.
    let is_unread = Cell::new(false);
    let out = Output {
        inner: rt.stdout(),
        is_unread: &is_unread,
    };
    let err = Messages {
        inner: rt.stderr(),
        is_unread: &is_unread,
    };
    let status = match words_of(&rt, alloc) {
        Ok(words) => command(
            &rt,
            alloc,
            words.as_slice(),
            rt.stdin(),
            out,
            err,
            has_color(&rt, rt.stdout().is_terminal()),
        ),
        Err(fault) => tell_no_words(fault, err),
    };
    ExitCode::from(status)
}
