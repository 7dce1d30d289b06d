// Draws the execution graph of a script of calls, and looks for cycles.
#![tactic(auto)]

mod graphs;
mod lists;

use anyhow::anyhow;
use reports::options::{BadOption, HELP, Input, Options};
use std::env;

fn main(rt: HostRuntime) -> anyhow::Result<()> {
    run(&rt)
}

fn run(rt: &HostRuntime) -> anyhow::Result<()> {
    let options = read_options(rt)?;
    if options.help {
        print!(rt; "{HELP}")?;
        return Ok(());
    }
    match options.input {
        Input::Script => graphs::run_script(rt, options),
        Input::Steps => lists::run_steps(rt),
    }
}

fn read_options(rt: &HostRuntime) -> anyhow::Result<Options> {
    let mut options = Options::default();
    // The first word is the program's own name.
    let mut words = env::args(rt)?.skip(1);
    while let Some(word) = words.next() {
        if word.as_str() == "--profile" {
            let name = words
                .next()
                .ok_or(BadOption::NoProfile)
                .map_err(|why| anyhow!("{why}"))?;
            options = options
                .with_profile(name.as_str())
                .map_err(|why| anyhow!("{name}: {why}"))?;
        } else {
            options = options
                .with(word.as_str())
                .map_err(|why| anyhow!("{word}: {why}"))?;
        }
    }
    Ok(options)
}
