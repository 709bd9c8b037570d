// The parts of a clockwork are written as text. Clocks are named x0, x1, .., and positions p0, p1, ..
ghost use Rattle.std.specs.Prelude.{◌≡◌, ℕ, List, ◌++◌, map, IfOk, string_bytes, codes, OnOk};
ghost use Rattle.std.specs.List.{flat_map};
ghost use Rattle.rows.specs.Parts.{constraint_value};
ghost use Rattle.clockworks.specs.Meaning.{constraints, invariant_of, edge, automaton, AddsText};
ghost use Rattle.drawing.specs.Sheets.{test_text, tests_text, clock_text, clocks_line, resets_text, position_lines, step_line, sheet_of};

use clockworks::parts::{Clockwork, Position, Step, Test};
use std::alloc::{AllocError, Global};

// No Display: tests are of rows, and positions and steps of clockworks, so that each would want a struct of its own around it.

// What is written as often as it comes. A test comes so behind the first of its position or step, and a clock behind `reset`.
trait Part {
    ghost text: { Self → List ℕ };

    fn write(&self, sheet: &mut String) -> Result<(), AllocError>
        ensures { OnOk result (AddsText sheet.old (text self.now) sheet.new) };
}

fn write_all<P: Part>(sheet: &mut String, parts: &[P]) -> Result<(), AllocError>
    ensures { OnOk result (AddsText sheet.old (flat_map P.text parts.now) sheet.new) }
{
    for part in parts {
        part.write(sheet)?;
    }
    Ok(())
}

// A test after a word.
fn write_test(sheet: &mut String, word: &str, test: Test) -> Result<(), AllocError>
    ensures { OnOk result (AddsText sheet.old (test_text word.now (constraint_value test)) sheet.new) }
{
    let clock = test.clock.0;
    let relation = test.relation;
    let bound = test.bound;
    write!(sheet, "{word} x{clock} {relation} {bound}")
}

impl Part for Test {
    ghost text = { λ test. test_text (codes ",") (constraint_value test) };

    fn write(&self, sheet: &mut String) -> Result<(), AllocError> {
        write_test(sheet, ",", *self)
    }
}

// Tests with commas between them, after a word.
fn write_tests(sheet: &mut String, word: &str, tests: &[Test]) -> Result<(), AllocError>
    ensures { OnOk result (AddsText sheet.old (tests_text word.now (constraints tests.now)) sheet.new) }
{
    let Some((first, rest)) = tests.split_first() else {
        return Ok(());
    };
    write_test(sheet, word, *first)?;
    write_all(sheet, rest)?;
    Ok(())
}

impl Part for u32 {
    ghost text = { clock_text };

    fn write(&self, sheet: &mut String) -> Result<(), AllocError> {
        write!(sheet, " x{self}")
    }
}

fn write_resets(sheet: &mut String, resets: &[u32]) -> Result<(), AllocError>
    ensures { OnOk result (AddsText sheet.old (resets_text resets.now) sheet.new) }
{
    if resets.is_empty() {
        return Ok(());
    }
    write!(sheet, " reset")?;
    write_all(sheet, resets)?;
    Ok(())
}

fn write_clocks(sheet: &mut String, clocks: u32) -> Result<(), AllocError>
    ensures { OnOk result (AddsText sheet.old (clocks_line clocks) sheet.new) }
{
    write!(sheet, "clocks")?;
    for clock in 0..clocks {
        clock.write(sheet)?;
    }
    write!(sheet, "\n")?;
    Ok(())
}

fn write_positions(sheet: &mut String, positions: &[Position]) -> Result<(), AllocError>
    ensures { OnOk result (AddsText sheet.old (position_lines 0 (map invariant_of positions.now)) sheet.new) }
{
    for (number, position) in positions.iter().enumerate() {
        write!(sheet, "position p{number}")?;
        write_tests(sheet, ":", position.tests.as_slice())?;
        write!(sheet, "\n")?;
    }
    Ok(())
}

impl Part for Step {
    ghost text = { λ step. step_line (edge step) };

    fn write(&self, sheet: &mut String) -> Result<(), AllocError> {
        let source = self.source;
        let target = self.target;
        write!(sheet, "step p{source} -> p{target}")?;
        write_tests(sheet, " when", self.tests.as_slice())?;
        write_resets(sheet, self.resets.as_slice())?;
        write!(sheet, "\n")?;
        Ok(())
    }
}

pub fn write_sheet(heap: Global, clockwork: &Clockwork) -> Result<String, AllocError>
    ensures { IfOk result (λ t. string_bytes t ≡ sheet_of (automaton clockwork.now)) }
{
    let mut sheet = String::new(heap);
    write_clocks(&mut sheet, clockwork.clocks)?;
    write_positions(&mut sheet, clockwork.positions.as_slice())?;
    write_all(&mut sheet, clockwork.steps.as_slice())?;
    Ok(sheet)
}
