// Rows with known answers and a known number of kinds: the answers at just that number, and at one less.
ghost use Rattle.std.specs.Prelude.{IfOk, vec_len};
ghost use Rattle.examples.specs.Trying.{Grew};

use crate::answers::{NoAnswer, Written};
use crate::report::{Report, Tester};
use clocks::answers::{Asked, ask, look_up};
use search::explores::explore;
use std::alloc::{AllocError, Global};
use std::mem;
use std::num::ParseIntError;
use thiserror::Error;

#[derive(Drop)]
pub struct Case {
    pub row: Vec<u32>,
    pub kinds: u32,
    pub answers: Vec<Asked>,
}

impl Case {
    fn new(heap: Global) -> Case {
        Case {
            row: Vec::new(heap),
            kinds: 0,
            answers: Vec::new(heap),
        }
    }
}

// Why a line cannot be read.
#[derive(Debug, Clone, Copy, Error)]
pub enum Flaw {
    #[error("there is not enough memory for the cases")]
    Memory(#[from(alloc)] AllocError),
    #[error("no part of a case")]
    NoPart,
}

// Why the cases cannot be read. Lines count from 1. No Display: the line is told only where the flaw is one of the text.
#[derive(Debug, Clone, Copy)]
pub struct Mistake {
    pub line: usize,
    pub flaw: Flaw,
}

// By hand, and the next: one variant takes both, which no `#[from]` does.
impl From<ParseIntError> for Flaw {
    fn from(_e: ParseIntError) -> Flaw {
        Flaw::NoPart
    }
}

impl From<NoAnswer> for Flaw {
    fn from(_e: NoAnswer) -> Flaw {
        Flaw::NoPart
    }
}

fn parse_row(heap: Global, text: &str) -> Result<Vec<u32>, Flaw> {
    text.split_whitespace()
        .map(|word| -> Result<u32, Flaw> { Ok(word.parse()?) })
        .try_collect(heap)
}

fn parse_answers(heap: Global, text: &str) -> Result<Vec<Asked>, Flaw> {
    text.split(" | ")
        .map(|part| -> Result<Asked, Flaw> { Ok(part.parse::<Written>()?.0) })
        .try_collect(heap)
}

// The cases that were read, and the one in the making.
#[derive(Drop)]
struct Reader {
    heap: Global,
    cases: Vec<Case>,
    case: Case,
}

impl Reader {
    // Each case is three lines: `rows: ..`, `kinds: ..` and `answers: .. | ..`; a line that begins with `#` is a comment.
    fn take_line(&mut self, text: &str) -> Result<(), Flaw> {
        if text.starts_with('#') {
            return Ok(());
        }
        match text.split_once(": ") {
            Some(("rows", words)) => self.case.row = parse_row(self.heap, words)?,
            Some(("kinds", word)) => self.case.kinds = word.parse()?,
            Some(("answers", parts)) => {
                self.case.answers = parse_answers(self.heap, parts)?;
                let whole = mem::replace(&mut self.case, Case::new(self.heap));
                self.cases.push(whole)?;
            }
            _ => return Err(Flaw::NoPart),
        }
        Ok(())
    }
}

pub fn parse_all(heap: Global, text: &str) -> Result<Vec<Case>, Mistake> {
    let mut reader = Reader {
        heap,
        cases: Vec::new(heap),
        case: Case::new(heap),
    };
    for (place, text) in text.lines().enumerate() {
        let line = place.saturating_add(1);
        reader
            .take_line(text)
            .map_err(|flaw| Mistake { line, flaw })?;
    }
    Ok(reader.cases)
}

// Every position, with what is said of it when it is asked about.
pub(crate) fn expect_each<F: FnMut(usize) -> Asked>(
    report: &mut Report,
    what: &str,
    case: &Case,
    mut answer: F,
) -> Result<(), AllocError>
    requires { F.IsAlwaysCallable answer }
    ensures { IfOk result (λ _. Grew (vec_len case.now.answers) report.old.tally report.new.tally) }
{
    for (position, expected) in case.answers.iter().enumerate() {
        report.expect(what, position, *expected, answer(position))?;
    }
    Ok(())
}

// Every position at just the number of kinds, by itself and in one exploration; at one kind less every position gets many.
fn check_answers(tester: &mut Tester, case: &Case) -> Result<(), AllocError> {
    let row = case.row.as_slice();
    let kinds = case.kinds;
    let Tester { report, work } = tester;
    expect_each(report, "asked", case, |position| {
        ask(row, position, kinds, work.as_mut_slice())
    })?;
    let explored = explore(row, kinds, work.as_mut_slice());
    expect_each(report, "looked up", case, |position| {
        look_up(explored, position)
    })?;
    for position in 0..case.answers.len() {
        let got = ask(row, position, kinds.saturating_sub(1), work.as_mut_slice());
        report.expect("one kind less", position, Asked::Many, got)?;
    }
    Ok(())
}

// A line for a case, after its differences.
pub fn check(tester: &mut Tester, number: usize, case: &Case) -> Result<(), AllocError> {
    let before = tester.report.tally;
    check_answers(tester, case)?;
    let report = &mut tester.report;
    let kinds = case.kinds;
    let positions = case.answers.len();
    write!(
        report.text,
        "case {number}: {kinds} kinds, {positions} positions: "
    )?;
    if report.tally.since(before).differences == 0 {
        report.line("all as listed")
    } else {
        report.line("not as listed")
    }
}
