// Drawings whose comments say the answers: each position is asked about, and its answer compared with what they say.
use crate::answers::Written;
use crate::report::{Report, Tester};
use crate::words::KINDS;
use clocks::answers::{Asked, look_up};
use drawing::Drawing;
use search::explores::explore;
use std::alloc::{AllocError, Global};
use thiserror::Error;

// A line that begins so says an answer: `# answer: struck after 2`, or one for all: `# answer: every position at 0`.
const MARK: &str = "# answer: ";

const EVERY: &str = "every position ";

#[derive(Clone, Copy)]
struct Expectation<'a> {
    // none where it is about every position
    position: Option<&'a str>,
    answer: Asked,
}

impl<'a> Expectation<'a> {
    fn parse(text: &'a str) -> Option<Self> {
        let (position, answer) = match text.strip_prefix(EVERY) {
            Some(answer) => (None, answer),
            None => {
                let (name, answer) = text.split_once(' ')?;
                (Some(name), answer)
            }
        };
        let answer = answer.parse::<Written>().ok()?.0;
        Some(Expectation { position, answer })
    }

    fn is_about(&self, position: &str) -> bool {
        self.position.is_none() || self.position == Some(position)
    }

    // Not by `is_none_or`: tried, and open stayed what it requires of the closure, that the bytes of its text are UTF-8.
    fn is_about_one_of(&self, positions: &[String]) -> bool {
        let Some(name) = self.position else {
            return true;
        };
        positions.iter().any(|known| known.as_str() == name)
    }
}

// Why no one answer is said for a position.
#[derive(Debug, Clone, Copy, Error)]
enum Doubt {
    #[error("no line says what is expected")]
    Nowhere,
    #[error("two lines say what is expected")]
    Twice,
}

// What the text says about a position.
fn find(text: &str, position: &str) -> Result<Asked, Doubt> {
    let mut about = text
        .lines()
        .filter_map(|line| line.strip_prefix(MARK))
        .filter_map(Expectation::parse)
        .filter(|expectation| expectation.is_about(position));
    let expectation = about.next().ok_or(Doubt::Nowhere)?;
    match about.next() {
        Some(_) => Err(Doubt::Twice),
        None => Ok(expectation.answer),
    }
}

// A line with the mark that says no answer, or one for a position that is not there, is a fault.
fn check_lines(report: &mut Report, text: &str, positions: &[String]) -> Result<(), AllocError> {
    for line in text.lines() {
        let Some(rest) = line.strip_prefix(MARK) else {
            continue;
        };
        let said = Expectation::parse(rest);
        if !said.is_some_and(|said| said.is_about_one_of(positions)) {
            report.fault(line)?;
        }
    }
    Ok(())
}

fn widest(positions: &[String]) -> usize {
    positions.iter().map(|name| name.len()).max().unwrap_or(0)
}

// A row of the table, with what is wrong about it.
fn compare(
    report: &mut Report,
    name: &str,
    width: usize,
    said: Result<Asked, Doubt>,
    got: Asked,
) -> Result<(), AllocError> {
    let shown = Written(got);
    write!(report.text, "  {name:<width$}  {shown}")?;
    match said {
        Ok(answer) => {
            let as_expected = answer == got;
            report.tally = report.tally.with(as_expected);
            if as_expected {
                return report.line("");
            }
            let expected = Written(answer);
            write!(report.text, "\n  DIFFERENCE: {expected} is expected\n")
        }
        Err(doubt) => {
            report.line("")?;
            report.fault(doubt)
        }
    }
}

// All positions from one exploration.
fn tabulate(tester: &mut Tester, text: &str, drawing: &Drawing) -> Result<(), AllocError> {
    let width = widest(drawing.positions.as_slice());
    let Tester { report, work } = tester;
    let explored = explore(drawing.row.as_slice(), KINDS, work.as_mut_slice());
    for (position, name) in drawing.positions.iter().enumerate() {
        let name = name.as_str();
        let got = look_up(explored, position);
        compare(report, name, width, find(text, name), got)?;
    }
    Ok(())
}

// Each position asked for by itself must have the same answer.
fn ask_each(tester: &mut Tester, text: &str, drawing: &Drawing) -> Result<(), AllocError> {
    for (position, name) in drawing.positions.iter().enumerate() {
        let got = tester.ask(drawing.row.as_slice(), position, KINDS);
        if let Ok(answer) = find(text, name.as_str()) {
            tester
                .report
                .expect("asked by itself", position, answer, got)?;
        }
    }
    Ok(())
}

pub fn check(heap: Global, tester: &mut Tester, name: &str, text: &str) -> Result<(), AllocError> {
    tester.report.line(name)?;
    match drawing::read(heap, text.as_bytes()) {
        Ok(drawing) => {
            check_lines(&mut tester.report, text, drawing.positions.as_slice())?;
            tabulate(tester, text, &drawing)?;
            ask_each(tester, text, &drawing)
        }
        Err(refusal) => {
            tester.report.fault("the drawing is refused")?;
            write!(tester.report.text, "  {refusal}\n")
        }
    }
}
