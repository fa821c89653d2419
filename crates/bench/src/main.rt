// The bench: a session with one job at a time, a command a line from standard input or from a file.
#![tactic(auto)]

mod serve;

use anyhow::{Context, Result};
use clap::{Arg, Command};
use serve::serve;
use std::alloc::{AllocError, Global};
use std::io::BufReader;
use std::process::ExitCode;
use std::{env, fs};

fn command<'a>(alloc: Global) -> Result<Command<'a>, AllocError> {
    let file = Arg::new(alloc, "FILE").help("A file of commands, in the place of standard input");
    Command::new(alloc, "bench")
        .version("1.0")
        .about("Finds the fewest fences for a listing, a command a line; `help` lists the commands")
        .arg(file)
}

fn main(rt: HostRuntime) -> Result<ExitCode> {
    let alloc = rt.alloc();
    let words: Vec<String> = env::args(&rt)?.collect(alloc)?;
    let matches = match command(alloc)?.try_get_matches_from(words.as_slice()) {
        Ok(matches) => matches,
        Err(error) => {
            error.print(&rt)?;
            return Ok(ExitCode::from(error.exit_code() as u8));
        }
    };
    let ended = match matches.get_str("FILE") {
        Some(path) => {
            let file = fs::open(&rt, path).context(format_args!("reading {path}"))?;
            serve(&rt, &mut BufReader::new(alloc, file)?)?
        }
        None => serve(&rt, &mut BufReader::new(alloc, rt.stdin())?)?,
    };
    Ok(ExitCode::from(ended.status()))
}
