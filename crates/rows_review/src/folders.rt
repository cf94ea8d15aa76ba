//! Two folders of which a file is not there any more when it is opened.
use review_reports::{Entry, Has, folder_page};
use review_text::options::{Diff, Form, Page, Paths};
use std::io;
use std::test::Fail;
use yaml_command::shelf::Shelf;
use yaml_text::counted::Counted;

/// A shelf without files.
#[derive(Clone, Copy)]
struct Empty;

impl Shelf for Empty {
    type File = &'static [u8];

    fn open(&self, _name: &str) -> io::Result<&'static [u8]> {
        Err(io::Error::from(io::ErrorKind::NotFound))
    }
}

const ASKED: Diff<'static> = Diff {
    left: "old",
    right: "new/",
    places: true,
    whole: false,
    lines: 9,
    form: Form::Line,
    context: 0,
    color: false,
    stat: false,
    by_position: false,
    by: &[],
    folds: true,
    paths: Paths::Plain,
};

#[test]
fn a_file_that_is_not_there_any_more_cannot_be_opened(rt: HostRuntime) -> Result<(), Fail> {
    let alloc = rt.alloc();
    let entry = Entry {
        name: "none",
        has: Has::Both,
    };
    let (mut out, mut err) = (Counted::new(Vec::new(alloc)), Vec::new(alloc));
    let status = folder_page(
        &Empty,
        alloc,
        (&ASKED, Page::Github),
        &[],
        &[entry],
        &mut out,
        &mut err,
    );
    let (out, err) = (
        String::from_utf8(out.into_inner())?,
        String::from_utf8(err)?,
    );
    let wanted =
        "yamlreview: old/none: cannot open: not found\nyamlreview: new/none: cannot open: not found\n";
    assert!(rt;
        status == 3 && out.is_empty() && err.as_str() == wanted,
        "{status} {out:?} {err:?}"
    );
    Ok(())
}
