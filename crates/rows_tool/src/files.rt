//! The files that the words of a row may name.
use crate::fakes::{NONE, Source};
use std::io;
use yaml_command::shelf::Shelf;

static SOURCES: [(&str, Source<'static>); 6] = [
    (
        "a.yaml",
        Source {
            bytes: b"--- [\"a\",\"b\"]",
            ..NONE
        },
    ),
    (
        "b.yaml",
        Source {
            bytes: b"---  [ \"\\x61\" , \"b\", ]\n",
            ..NONE
        },
    ),
    (
        "bad.yaml",
        Source {
            bytes: b"a\xff",
            ..NONE
        },
    ),
    (
        "open.yaml",
        Source {
            bytes: b"--- [\"",
            ..NONE
        },
    ),
    (
        "failing.yaml",
        Source {
            bytes: b"--- \"x\"",
            step: 2,
            bad: 3,
            ..NONE
        },
    ),
    (
        "a.events",
        Source {
            bytes: b"+STR\n+DOC ---\n+SEQ []\n=VAL \"a\n=VAL \"b\n-SEQ\n-DOC\n-STR\n",
            ..NONE
        },
    ),
];

/// The files of these names.
#[derive(Clone, Copy)]
pub struct Listed;

impl Shelf for Listed {
    type File = Source<'static>;

    fn open(&self, name: &str) -> io::Result<Source<'static>> {
        for (file, source) in &SOURCES {
            if *file == name {
                return Ok(*source);
            }
        }
        Err(io::Error::from(io::ErrorKind::NotFound))
    }
}
