// The tool for card images: one command from the arguments or, with none, one command a line from standard input.
// What the commands do is in the other files; here is who runs them, and where an error goes.
#![tactic(auto)]

mod dump;
mod files;
mod maker;
mod numbers;

use anyhow::anyhow;
use std::alloc::AllocError;
use std::env;
use std::process::ExitCode;

const HELP: &str = "cardtool: make and show littlefs cards (disk version 2.0)

  cardtool new FILE B N       make FILE the image of an empty card of N blocks of B bytes
  cardtool log FILE B BLOCK   show the log of one block of an image: its revision, commits and tags
  cardtool help               this text

B is 512, 1024, 2048 or 4096, and N is 8 to 4096. Blocks are counted from 0; numbers are decimal.
With no arguments, commands are read from standard input, one a line, their words divided by spaces:
an error is printed and the next line goes on. For example:

  cardtool new empty.img 512 8
  cardtool log empty.img 512 0";

// One command, by its words. The commands are matched as text, so that all of them are seen in one place.
fn run(rt: &HostRuntime, words: &[String]) -> anyhow::Result<()> {
    let Some(command) = words.first() else {
        return Ok(());
    };
    match command.as_str() {
        "help" => {
            rt.println(HELP)?;
            Ok(())
        }
        "new" => maker::make_card(rt, words),
        "log" => dump::show_block(rt, words),
        _ => Err(anyhow!("no such command; 'help' lists them")),
    }
}

fn split_words(rt: &HostRuntime, line: &str) -> Result<Vec<String>, AllocError> {
    let heap = rt.alloc();
    line.split_whitespace()
        .map(|word| String::from_str(heap, word))
        .try_collect(heap)
}

fn run_line(rt: &HostRuntime, line: &str) -> anyhow::Result<()> {
    let words = split_words(rt, line)?;
    if let Err(error) = run(rt, words.as_slice()) {
        println!(rt; "error: {error}")?;
    }
    Ok(())
}

fn run_lines(rt: &HostRuntime) -> anyhow::Result<()> {
    for line in rt.lines(rt.alloc()) {
        run_line(rt, line?.as_str())?;
    }
    Ok(())
}

fn run_all(rt: &HostRuntime) -> anyhow::Result<()> {
    let words: Vec<String> = env::args(rt)?.skip(1).collect(rt.alloc())?;
    if words.is_empty() {
        return run_lines(rt);
    }
    run(rt, words.as_slice())
}

fn main(rt: HostRuntime) -> anyhow::Result<ExitCode> {
    match run_all(&rt) {
        Ok(()) => Ok(ExitCode::SUCCESS),
        Err(error) => {
            eprintln!(rt; "cardtool: {error}")?;
            Ok(ExitCode::FAILURE)
        }
    }
}
