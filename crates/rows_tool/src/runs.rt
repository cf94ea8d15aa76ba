//! Runs of words over the tests' own streams and files.
use std::alloc::Global;
use std::process::Abort;
use std::test::Fail;

/// What a run answered and wrote.
#[derive(Drop)]
pub struct Ran {
    pub status: u8,
    pub out: String,
    pub err: String,
}

impl Ran {
    /// A run with this status, which wrote this.
    pub fn new(status: u8, out: Vec<u8>, err: Vec<u8>) -> Result<Ran, Fail> {
        Ok(Ran {
            status,
            out: String::from_utf8(out)?,
            err: String::from_utf8(err)?,
        })
    }

    /// Asserts what a run of these words answered and wrote. `over` tells its input, or its streams.
    pub fn gave<T: Abort>(
        &self,
        rt: &T,
        words: &[&str],
        over: &str,
        status: u8,
        out: &str,
        err: &str,
    ) {
        let (got_out, got_err) = (self.out.as_str(), self.err.as_str());
        assert!(rt;
            self.status == status && got_out == out && got_err == err,
            "{words:?} over {over:?}: {} {got_out:?} {got_err:?}",
            self.status
        );
    }
}

/// The words as they are passed to the program.
pub fn owned(alloc: Global, words: &[&str]) -> Result<Vec<String>, Fail> {
    let mut list = Vec::new(alloc);
    for word in words {
        list.push(word.to_string(alloc)?)?;
    }
    Ok(list)
}
