//! Does jobs with which the operations of a text area are timed, and prints the result of each.
//!
//! Each line of standard input is a job: its topic, which is `calls`, `paint`, `wrap`, `typing`,
//! `frames` or `terminal`, then one space and the fields that the topic's module describes.
#![tactic(auto)]

mod calls;
mod frames;
mod paint;
mod terminal;
mod typing;
mod wrap;

use anyhow::{Context, Result};
use std::alloc::Global;

/// A job of one of the topics.
#[derive(Drop)]
enum Job<'a> {
    Calls(calls::CallJob),
    Paint(paint::PaintJob<'a>),
    Wrap(wrap::WrapJob<'a>),
    Typing(typing::TypingJob),
    Frames(frames::FrameJob),
    Terminal(terminal::TerminalJob),
}

impl<'a> Job<'a> {
    /// Parses a topic and a job of that topic.
    fn parse(line: &'a str) -> Option<Job<'a>> {
        let (topic, job) = line.split_once(' ')?;
        match topic {
            "calls" => Some(Job::Calls(calls::CallJob::parse(job)?)),
            "paint" => Some(Job::Paint(paint::PaintJob::parse(job)?)),
            "wrap" => Some(Job::Wrap(wrap::WrapJob::parse(job)?)),
            "typing" => Some(Job::Typing(typing::TypingJob::parse(job)?)),
            "frames" => Some(Job::Frames(frames::FrameJob::parse(job)?)),
            "terminal" => Some(Job::Terminal(terminal::TerminalJob::parse(job)?)),
            _ => None,
        }
    }

    /// Does the job, and returns the text to print.
    fn run(&self, alloc: Global) -> Result<String> {
        match self {
            Job::Calls(job) => Ok(format!(in alloc; "{}", job.run(alloc)?)?),
            Job::Paint(job) => Ok(job.run(alloc)?),
            Job::Wrap(job) => Ok(format!(in alloc; "{}", job.run(alloc)?)?),
            Job::Typing(job) => {
                let (rows, column) = job.run(alloc)?;
                Ok(format!(in alloc; "{rows} {column}")?)
            }
            Job::Frames(job) => job.run(alloc),
            Job::Terminal(job) => Ok(format!(in alloc; "{}", job.run(alloc)?)?),
        }
    }
}

fn main(rt: HostRuntime) -> Result<()> {
    let alloc = rt.alloc();
    for input in rt.lines(alloc) {
        let input = input?;
        let job = Job::parse(input.as_str()).context("a line that is no job")?;
        let answer = job.run(alloc)?;
        println!(rt; "{answer}")?;
    }
    Ok(())
}
