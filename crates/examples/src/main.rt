// Asks about clockworks whose answers are known, and prints a table of the answers, with every difference.
#![tactic(auto)]

use crate::cases::{Case, Flaw, Mistake};
use crate::report::{Report, Tally, Tester};
use crate::words::{KINDS, WORDS};
use anyhow::anyhow;
use std::alloc::{AllocError, Global};

mod answers;
mod cases;
mod drawings;
mod files;
mod limits;
mod report;
mod words;

// All drawings of a folder, with how many answers were compared.
fn check_folder(rt: &HostRuntime, tester: &mut Tester, folder: &str) -> anyhow::Result<()> {
    let before = tester.report.tally;
    for name in &files::list(rt, folder)? {
        let name = name.as_str();
        let text = files::read(rt, folder, name)?;
        drawings::check(rt.alloc(), tester, name, text.as_str())?;
    }
    tester.report.sum_up(folder, before)?;
    tester.report.line("")?;
    Ok(())
}

fn check_cases(tester: &mut Tester, cases: &[Case]) -> Result<(), AllocError> {
    let before = tester.report.tally;
    tester
        .report
        .line("cases, at just their number of kinds and at one less:")?;
    for (place, case) in cases.iter().enumerate() {
        cases::check(tester, place.saturating_add(1), case)?;
    }
    tester.report.sum_up("cases", before)?;
    tester.report.line("")
}

// One edge of a call, for every case.
fn check_limit<F: Fn(&mut Tester, &Case) -> Result<(), AllocError>>(
    tester: &mut Tester,
    cases: &[Case],
    name: &str,
    check: F,
) -> Result<(), AllocError>
    requires { F.IsAlwaysCallable check }
{
    let before = tester.report.tally;
    for case in cases {
        check(tester, case)?;
    }
    tester.report.sum_up(name, before)
}

fn check_limits(heap: Global, tester: &mut Tester, cases: &[Case]) -> Result<(), AllocError> {
    check_limit(
        tester,
        cases,
        "few at one word less than enough, and the answers at enough",
        limits::check_few,
    )?;
    check_limit(
        tester,
        cases,
        "no place past the last position",
        limits::check_places,
    )?;
    check_limit(
        tester,
        cases,
        "the same answers whatever the words hold",
        limits::check_garbage,
    )?;
    check_limit(
        tester,
        cases,
        "the same answers at a second call",
        limits::check_twice,
    )?;
    check_limit(tester, cases, "no work for broken rows", |tester, case| {
        limits::check_broken(heap, tester, case)
    })?;
    tester.report.line("")
}

// The rows of the file with their answers.
fn check_rows(heap: Global, tester: &mut Tester, text: &str) -> Result<(), AllocError> {
    match cases::parse_all(heap, text) {
        Ok(cases) => {
            check_cases(tester, cases.as_slice())?;
            check_limits(heap, tester, cases.as_slice())
        }
        Err(Mistake { line, flaw }) => {
            if let Flaw::NoPart = flaw {
                write!(tester.report.text, "cases.txt, line {line}:\n")?;
            }
            tester.report.fault(flaw)
        }
    }
}

fn check_all(rt: &HostRuntime, tester: &mut Tester) -> anyhow::Result<()> {
    write!(
        tester.report.text,
        "Drawings, with at most {KINDS} kinds of states:\n\n"
    )?;
    check_folder(rt, tester, "drawings")?;
    check_folder(rt, tester, "errors")?;
    let text = files::read(rt, ".", "cases.txt")?;
    check_rows(rt.alloc(), tester, text.as_str())?;
    tester.report.sum_up("in all", Tally::default())?;
    Ok(())
}

fn run(rt: &HostRuntime) -> anyhow::Result<()> {
    let heap = rt.alloc();
    let mut tester = Tester {
        report: Report::new(heap),
        work: vec![in heap; 0u32; WORDS]?,
    };
    let done = check_all(rt, &mut tester);
    rt.print(tester.report.text.as_str())?;
    done?;
    if tester.report.tally.differences > 0 {
        return Err(anyhow!("an answer is not the expected one"));
    }
    Ok(())
}

fn main(rt: HostRuntime) -> anyhow::Result<()> {
    run(&rt)
}
