// A second opinion on the answers of `clocks`: all states with clocks in sixtieths are gone through, for worked examples and
// for automata made at random, and what is found there is held against the answers.
#![tactic(auto)]

use crate::report::Reporter;
use crate::trials::{AUTOMATA, SEED};
use std::io;

mod comparison;
mod counts;
mod examples;
mod generator;
mod grid_search;
mod inventions;
mod opinions;
mod problems;
mod report;
mod texts;
mod trails;
mod trials;
mod visits;
mod ways;

fn main(rt: HostRuntime) -> io::Result<()> {
    // before the first line, so that nothing is printed where memory is short; once, for both parts
    let mut reporter = Reporter::new(&rt)?;
    println!(rt; "Worked examples:")?;
    let examples = examples::compare_examples(&mut reporter)?;
    println!(rt; "\n{AUTOMATA} automata made at random from the seed {SEED}:")?;
    let inventions = trials::compare_inventions(&mut reporter)?;
    if examples.differences > 0 || inventions.differences > 0 {
        return Err(io::Error::from(io::ErrorKind::Other));
    }
    Ok(())
}
