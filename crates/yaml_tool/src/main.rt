//! The program `yamlcanon`: it reads YAML and writes its canonical text.
#![tactic(auto)]

use std::env;
use std::process::ExitCode;
use yaml_args::{WordsFault, behind_name};
use yaml_command::command::{command, report};
use yaml_command::refusal::Refusal;
use yaml_text::counted::Counted;

fn main(rt: HostRuntime) -> ExitCode {
    let alloc = rt.alloc();
    let words: Result<Vec<String>, WordsFault> = match env::args(&rt) {
        Ok(words) => words.collect(alloc).map_err(WordsFault::from),
        Err(error) => Err(WordsFault::from(error)),
    };
    let status = match words {
        Ok(words) => command(
            &rt,
            alloc,
            behind_name(&words),
            rt.stdin(),
            rt.stdout(),
            rt.stderr(),
        ),
        Err(fault) => report(Err(Refusal::Words(fault)), &mut Counted::new(rt.stderr())),
    };
    ExitCode::from(status)
}
