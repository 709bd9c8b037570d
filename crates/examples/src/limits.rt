// The edges of a call: too few words, positions that are not there, words that hold anything, rows that are no clockwork's.
ghost use Rattle.std.specs.Prelude.{◌≡◌, ◌+◌, ◌-◌, ◌*◌, ◌^◌, ◌<◌, ◌≤◌, ◌⊎◌, ℕ, get_or, length, min, IfOk, vec_len};
ghost use Rattle.examples.specs.Trying.{Grew};

use crate::cases::{Case, expect_each};
use crate::report::Tester;
use crate::words::enough;
use clocks::answers::{Asked, ask, look_up};
use search::explores::explore;
use std::alloc::{AllocError, AllocFailed, Global};

// Two words in turn.
fn stripes(place: usize) -> u32 {
    if place % 2 == 0 { 0x5555_5555 } else { 1 }
}

fn fill<F: Fn(usize) -> u32>(work: &mut [u32], word: F)
    requires { F.IsAlwaysCallable word }
    ensures length { length work.new ≡ length work.old }
    ensures words { (place : ℕ) → place < length work.new → F.post word place (get_or work.new place 0) }
{
    for (place, at) in work.iter_mut().enumerate() {
        *at = word(place);
    }
}

// At one word less than enough, and at the largest number of kinds, every position gets few, also one that is not there; at
// enough none does.
pub fn check_few(tester: &mut Tester, case: &Case) -> Result<(), AllocError>
    ensures few { IfOk result (λ _. Grew 4 tester.old.report.tally tester.new.report.tally) }
    ensures enough { IfOk result (λ _. Grew (4 + vec_len case.now.answers) tester.old.report.tally tester.new.report.tally ⊎ (min (tester.old.report.tally.differences + 1) (2 ^ 64 - 1) ≤ tester.new.report.tally.differences)) }
{
    let Tester { report, work } = tester;
    let work = work.as_mut_slice();
    let row = case.row.as_slice();
    let words = enough(row.len(), case.kinds);
    let last = case.answers.len().saturating_sub(1);
    for position in [0, last, last.saturating_add(1), usize::MAX] {
        if let Some(less) = work.get_mut(0..words.saturating_sub(1)) {
            let got = ask(row, position, case.kinds, less);
            report.expect("one word less than enough", position, Asked::Few, got)?;
        }
        let got = ask(row, position, u32::MAX, work);
        report.expect("words for far fewer kinds", position, Asked::Few, got)?;
    }
    match work.get_mut(0..words) {
        Some(just) => expect_each(report, "just enough words", case, |position| {
            ask(row, position, case.kinds, just)
        }),
        None => report.fault("the case needs more words than the program has"),
    }
}

// The position after the last and the largest number, where the answers are known and where there are too many kinds.
pub fn check_places(tester: &mut Tester, case: &Case) -> Result<(), AllocError>
    ensures { IfOk result (λ _. Grew 6 tester.old.report.tally tester.new.report.tally) }
{
    let row = case.row.as_slice();
    for position in [case.answers.len(), usize::MAX] {
        for kinds in [case.kinds, case.kinds.saturating_sub(1), 0] {
            let got = tester.ask(row, position, kinds);
            tester
                .report
                .expect("no such position", position, Asked::NoPlace, got)?;
        }
    }
    Ok(())
}

// Words that were filled before.
fn check_filled<F: Fn(usize) -> u32>(
    tester: &mut Tester,
    case: &Case,
    word: F,
) -> Result<(), AllocError>
    requires { F.IsAlwaysCallable word }
    ensures { IfOk result (λ _. Grew (vec_len case.now.answers) tester.old.report.tally tester.new.report.tally) }
{
    let Tester { report, work } = tester;
    fill(work.as_mut_slice(), word);
    let explored = explore(case.row.as_slice(), case.kinds, work.as_mut_slice());
    expect_each(report, "words filled before", case, |position| {
        look_up(explored, position)
    })
}

// Whatever the words hold, the answers are the same.
pub fn check_garbage(tester: &mut Tester, case: &Case) -> Result<(), AllocError>
    ensures { IfOk result (λ _. Grew (4 * vec_len case.now.answers) tester.old.report.tally tester.new.report.tally) }
{
    check_filled(tester, case, |_| 0)?;
    check_filled(tester, case, |_| u32::MAX)?;
    check_filled(tester, case, |place| (place & 0xffff_ffff) as u32)?;
    check_filled(tester, case, stripes)
}

// The same call again, on the words that the first one left.
pub fn check_twice(tester: &mut Tester, case: &Case) -> Result<(), AllocError>
    ensures { IfOk result (λ _. Grew (2 * vec_len case.now.answers) tester.old.report.tally tester.new.report.tally) }
{
    for (position, expected) in case.answers.iter().enumerate() {
        fill(tester.work.as_mut_slice(), stripes);
        for what in ["first call", "second call"] {
            let got = tester.ask(case.row.as_slice(), position, case.kinds);
            tester.report.expect(what, position, *expected, got)?;
        }
    }
    Ok(())
}

// A row to which something is done, so that it is no clockwork's.
fn broken<F: FnOnce(&mut Vec<u32>) -> Result<(), AllocFailed<u32>>>(
    heap: Global,
    row: &[u32],
    damage: F,
) -> Result<Vec<u32>, AllocError>
    requires { F.IsAlwaysCallable damage }
{
    let mut row = row.to_vec(heap)?;
    damage(&mut row)?;
    Ok(row)
}

fn check_damage<F: FnOnce(&mut Vec<u32>) -> Result<(), AllocFailed<u32>>>(
    heap: Global,
    tester: &mut Tester,
    case: &Case,
    damage: F,
) -> Result<(), AllocError>
    requires { F.IsAlwaysCallable damage }
    ensures { IfOk result (λ _. Grew 1 tester.old.report.tally tester.new.report.tally) }
{
    let Ok(row) = broken(heap, case.row.as_slice(), damage) else {
        return tester.report.fault("not enough memory");
    };
    for position in [0, usize::MAX] {
        let got = tester.ask(row.as_slice(), position, case.kinds);
        tester
            .report
            .expect("a broken row", position, Asked::NoWork, got)?;
    }
    Ok(())
}

// Broken rows: empty, a word less, a word more, and the largest number for how many clocks, positions or tests there are.
pub fn check_broken(heap: Global, tester: &mut Tester, case: &Case) -> Result<(), AllocError>
    ensures { IfOk result (λ _. Grew 6 tester.old.report.tally tester.new.report.tally) }
{
    check_damage(heap, tester, case, |row| {
        row.clear();
        Ok(())
    })?;
    check_damage(heap, tester, case, |row| {
        row.pop();
        Ok(())
    })?;
    check_damage(heap, tester, case, |row| row.push(0))?;
    for place in 0..3 {
        check_damage(heap, tester, case, |row| {
            if let Some(word) = row.get_mut(place) {
                *word = u32::MAX;
            }
            Ok(())
        })?;
    }
    Ok(())
}
