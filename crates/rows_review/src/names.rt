//! Globs of names, and variables of colour.
use review_command::arguments::has_color;
use review_patterns::{fits_glob, is_glob};
use std::env::FillError;
use std::rt::Env;
use std::test::Fail;

/// Globs, names of files, and whether each name is one of the glob.
const GLOBS: [(&str, &str, bool); 16] = [
    ("*.yaml", "a.yaml", true),
    ("*.yaml", "a.b.yaml", true),
    ("*.yaml", "a.yml", false),
    ("*.yaml", "yaml", false),
    ("*.yaml", ".yaml", false),
    (".*", ".gitlab-ci.yml", true),
    (".gitlab-ci.yml", ".gitlab-ci.yml", true),
    ("*", "README.md", true),
    ("*", ".hidden", false),
    ("Chart.lock", "Chart.lock", true),
    ("Chart.lock", "Chart.lock.yaml", false),
    ("values-*.yaml", "values-prod.yaml", true),
    ("values-*.yaml", "values-.yaml", true),
    ("values-*.yaml", "values.yaml", false),
    ("aba*ba", "aba", false),
    ("aba*ba", "ababa", true),
];

#[test]
fn globs_stand_for_names(rt: HostRuntime) -> Result<(), Fail> {
    for (glob, name, fits) in &GLOBS {
        assert!(rt;
            is_glob(glob) && fits_glob(glob, name) == *fits,
            "{glob} {name}"
        );
    }
    for text in [
        "",
        "**",
        "*a*",
        "a/b",
        "?.yaml",
        "[ab]",
        "*.{yaml,yml}",
        "a\\*",
    ] {
        assert!(rt; !is_glob(text), "{text}");
    }
    Ok(())
}

/// An environment with some variables.
#[derive(Drop)]
struct Variables(&'static [(&'static str, &'static str)]);

impl Env for Variables {
    fn arg(&self, _i: usize, _buf: &mut [u8]) -> Result<usize, FillError> {
        Err(FillError::NotPresent)
    }

    fn var(&self, name: &str, buf: &mut [u8]) -> Result<usize, FillError> {
        for (variable, value) in self.0 {
            if *variable == name {
                let Some(room) = buf.get_mut(..value.len()) else {
                    return Err(FillError::TooLong);
                };
                room.copy_from_slice(value.as_bytes());
                return Ok(value.len());
            }
        }
        Err(FillError::NotPresent)
    }

    fn var_at(&self, _i: usize, _buf: &mut [u8]) -> Result<usize, FillError> {
        Err(FillError::NotPresent)
    }
}

#[test]
fn variables_tell_whether_there_is_colour(rt: HostRuntime) -> Result<(), Fail> {
    assert!(rt; has_color(&Variables(&[]), true) && !has_color(&Variables(&[]), false));
    let none = Variables(&[("NO_COLOR", "1"), ("GIT_PAGER_IN_USE", "true")]);
    assert!(rt; !has_color(&none, true) && !has_color(&none, false));
    assert!(rt; !has_color(&Variables(&[("NO_COLOR", "a long value of it")]), true));
    assert!(rt; has_color(&Variables(&[("NO_COLOR", "")]), true));
    assert!(rt; has_color(&Variables(&[("GIT_PAGER_IN_USE", "true")]), false));
    Ok(())
}
