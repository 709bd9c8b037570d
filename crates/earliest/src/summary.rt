// A clockwork in words: its clocks, its positions and its steps, by their names and numbers.
use console::names::Name;
use drawing::Drawing;
use rows::constraints::{Clock, Conjunction};
use rows::edges::{Edge, Location};
use rows::views::Automaton;
use std::alloc::{AllocError, Global};
use std::fmt;

// A clockwork, with the names of its clocks and positions.
#[derive(Clone, Copy)]
struct Summary<'a> {
    automaton: Automaton<'a>,
    names: &'a Drawing,
}

// As `1 clock:` or `2 clocks:`.
fn write_count<W: fmt::Write>(f: &mut W, count: usize, what: &str) -> fmt::Result {
    let plural = if count == 1 { "" } else { "s" };
    write!(f, "{count} {what}{plural}:")
}

impl<'a> Summary<'a> {
    fn clock(&self, clock: Clock) -> Name<'a> {
        Name {
            known: self.names.clocks.as_slice(),
            letters: "x",
            number: clock.0 as usize,
        }
    }

    fn position(&self, location: Location) -> Name<'a> {
        Name {
            known: self.names.positions.as_slice(),
            letters: "p",
            number: location.0 as usize,
        }
    }

    // The tests with commas between them, after a word.
    fn write_tests<W: fmt::Write>(
        &self,
        f: &mut fmt::Formatter<W>,
        word: &str,
        tests: Conjunction<'_>,
    ) -> fmt::Result {
        for (place, test) in tests.into_iter().enumerate() {
            f.write_str(if place == 0 { word } else { ", " })?;
            let clock = self.clock(test.clock);
            write!(f, "{clock} {} {}", test.relation, test.bound)?;
        }
        Ok(())
    }

    fn write_clocks<W: fmt::Write>(&self, f: &mut fmt::Formatter<W>) -> fmt::Result {
        let count = self.automaton.clocks();
        write_count(f, count as usize, "clock")?;
        for number in 0..count {
            write!(f, " {}", self.clock(Clock(number)))?;
        }
        f.write_str("\n")
    }

    fn write_positions<W: fmt::Write>(&self, f: &mut fmt::Formatter<W>) -> fmt::Result {
        let count = self.automaton.locations();
        write_count(f, count as usize, "position")?;
        f.write_str("\n")?;
        for (number, tests) in (0..count).zip(self.automaton.invariants()) {
            write!(f, "  {number} {}", self.position(Location(number)))?;
            self.write_tests(f, ": ", tests)?;
            f.write_str("\n")?;
        }
        Ok(())
    }

    fn write_step<W: fmt::Write>(&self, f: &mut fmt::Formatter<W>, edge: Edge<'_>) -> fmt::Result {
        let source = self.position(edge.source);
        let target = self.position(edge.target);
        write!(f, "{source} -> {target}")?;
        self.write_tests(f, " when ", edge.guard)?;
        for (place, clock) in edge.resets.iter().enumerate() {
            f.write_str(if place == 0 { " reset " } else { " " })?;
            write!(f, "{}", self.clock(Clock(*clock)))?;
        }
        f.write_str("\n")
    }

    fn write_steps<W: fmt::Write>(&self, f: &mut fmt::Formatter<W>) -> fmt::Result {
        let count = self.automaton.edges().count();
        if count == 0 {
            return f.write_str("no steps\n");
        }
        write_count(f, count, "step")?;
        f.write_str("\n")?;
        for (number, edge) in self.automaton.edges().enumerate() {
            write!(f, "  {number} ")?;
            self.write_step(f, edge)?;
        }
        Ok(())
    }
}

impl<'a> fmt::Display for Summary<'a> {
    fn fmt<W: fmt::Write>(&self, f: &mut fmt::Formatter<W>) -> fmt::Result {
        self.write_clocks(f)?;
        self.write_positions(f)?;
        self.write_steps(f)
    }
}

pub fn write(
    heap: Global,
    automaton: Automaton<'_>,
    names: &Drawing,
) -> Result<String, AllocError> {
    format!(in heap; "{}", Summary { automaton, names })
}
