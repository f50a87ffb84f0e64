// Answers lines, each as soon as it is read: those of the file that is named, or of standard input.
#![tactic(auto)]

mod replies;

use anyhow::anyhow;
use replies::reply_to;
use std::io::{BufRead, BufReader};
use std::process::ExitCode;
use std::{env, fs};

fn answer_lines<R: BufRead + Drop>(rt: &HostRuntime, mut input: R) -> anyhow::Result<ExitCode> {
    let heap = rt.alloc();
    let mut line = Vec::new(heap);
    // A reader may never end, so the loop counts: every loop is proved to end.
    for _ in 0..u64::MAX {
        line.clear();
        if input.read_until(b'\n', &mut line)? == 0 {
            break;
        }
        if let Some(reply) = reply_to(heap, line.as_slice())? {
            rt.println(reply)?;
        }
    }
    Ok(ExitCode::SUCCESS)
}

// An error that is printed here and not handed on is printed whole: `anyhow::Error` would cut a long path, and the reason with it.
fn answer_file(rt: &HostRuntime, path: &str) -> anyhow::Result<ExitCode> {
    match fs::open(rt, path) {
        Ok(file) => answer_lines(rt, BufReader::new(rt.alloc(), file)?),
        Err(error) => {
            eprintln!(rt; "desk: {path}: {error}")?;
            Ok(ExitCode::FAILURE)
        }
    }
}

fn run(rt: &HostRuntime) -> anyhow::Result<ExitCode> {
    let mut words = env::args(rt)?.skip(1);
    match (words.next(), words.next()) {
        (None, _) => answer_lines(rt, BufReader::new(rt.alloc(), rt.stdin())?),
        (Some(path), None) => answer_file(rt, path.as_str()),
        _ => Err(anyhow!("usage: desk [FILE]")),
    }
}

fn main(rt: HostRuntime) -> anyhow::Result<ExitCode> {
    match run(&rt) {
        Err(error) => {
            eprintln!(rt; "desk: {error}")?;
            Ok(ExitCode::FAILURE)
        }
        status => status,
    }
}
