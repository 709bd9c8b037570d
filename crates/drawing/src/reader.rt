// A drawing is read line by line into the parts of a clockwork.
ghost use Rattle.std.specs.Prelude.{◌≡◌, ◌+◌, ◌*◌, ◌<◌, ◌≤◌, ◌++◌, length, IfOk, Some, None, vec_len, MatchResult, OnOk};
ghost use Rattle.automata.specs.Rows.{write};
ghost use Rattle.clockworks.specs.Meaning.{automaton};
ghost use Rattle.drawing.specs.Words.{sign_part};
ghost use Rattle.drawing.specs.Comparisons.{tests_of, comparison_at};
ghost use Rattle.drawing.specs.Sizes.{test_count, position_size, step_size, parts_size, Took};

use crate::cursor::Cursor;
use crate::errors::{Expected, Place, Sign};
use crate::mistakes::Mistake;
use crate::names::{Names, find};
use crate::room::Room;
use clockworks::parts::{Clock, Clockwork, Position, Relation, Step, Test};
use rows::constraints::Owner;
use rows::limits::MOST_BOUND;
use std::alloc::Global;

// How many numbers of the row each part takes, without the tests and clocks in it.
const POSITION_NUMBERS: usize = 1;

const STEP_NUMBERS: usize = 4;

const TEST_NUMBERS: usize = 3;

const RESET_NUMBERS: usize = 1;

// How a clock is compared, as a drawing writes it: `=` stands for two tests. No Option of a relation: its None would not say `=`.
#[derive(Clone, Copy)]
enum Comparison {
    One(Relation),
    Equal,
}

// Takes the next word as a name that is there, and gives its number.
fn read_name(names: &[String], cursor: &mut Cursor, expected: Expected) -> Result<u32, Mistake> {
    let mistake = cursor.mistake(expected);
    let text = cursor.text().ok_or(mistake)?;
    let number = find(names, text).ok_or(mistake)?;
    cursor.advance();
    Ok(number)
}

fn read_comparison(cursor: &mut Cursor, owner: Owner) -> Result<Comparison, Mistake>
    ensures { MatchResult result (λ k. comparison_at owner (sign_part cursor.old.word) ≡ Some k) (λ _. comparison_at owner (sign_part cursor.old.word) ≡ None) }
{
    let comparison = match (cursor.sign(), owner) {
        (Some(Sign::Relation(relation)), _) if owner.takes(relation) => Comparison::One(relation),
        (Some(Sign::Equal), Owner::Edge) => Comparison::Equal,
        (_, Owner::Location) => return Err(cursor.mistake(Expected::UpperRelation)),
        (_, Owner::Edge) => return Err(cursor.mistake(Expected::Relation)),
    };
    cursor.advance();
    Ok(comparison)
}

fn read_bound(cursor: &mut Cursor) -> Result<u32, Mistake>
    ensures { IfOk result (λ bound. bound ≤ 10000) }
{
    let mistake = cursor.mistake(Expected::Bound);
    let text = cursor.text().ok_or(mistake)?;
    let bound = text
        .parse::<u32>()
        .ok()
        .filter(|bound| *bound <= MOST_BOUND)
        .ok_or(mistake)?;
    cursor.advance();
    Ok(bound)
}

// How many numbers of the row the tests of a comparison take.
fn numbers_of(comparison: Comparison) -> usize
    ensures { result ≡ 3 * test_count comparison }
{
    match comparison {
        Comparison::One(_) => TEST_NUMBERS,
        Comparison::Equal => 2 * TEST_NUMBERS,
    }
}

fn push_test(
    tests: &mut Vec<Test>,
    clock: Clock,
    comparison: Comparison,
    bound: u32,
) -> Result<(), Mistake>
    ensures items { OnOk result (tests.new.items ≡ tests.old.items ++ tests_of clock comparison bound) }
    ensures len { OnOk result (vec_len tests.new ≡ vec_len tests.old + test_count comparison) }
{
    match comparison {
        Comparison::One(relation) => tests.push(Test {
            clock,
            relation,
            bound,
        })?,
        Comparison::Equal => {
            tests.push(Test {
                clock,
                relation: Relation::AtMost,
                bound,
            })?;
            tests.push(Test {
                clock,
                relation: Relation::AtLeast,
                bound,
            })?;
        }
    }
    Ok(())
}

// Where a line is read, and the room of the row for what comes.
#[derive(Drop)]
struct Reader<'a> {
    heap: Global,
    names: &'a Names,
    cursor: Cursor<'a>,
    room: Room,
}

impl<'a> Reader<'a> {
    // At the first word of the line with this index, from 0.
    fn new(heap: Global, names: &'a Names, index: usize, line: &'a str, room: Room) -> Reader<'a>
        ensures { result.room ≡ room }
    {
        Reader {
            heap,
            names,
            cursor: Cursor::new(index, line),
            room,
        }
    }

    // The next word is a clock: its place and its number.
    fn clock(&mut self) -> Result<(Place, u32), Mistake>
        ensures { OnOk result (self.new.room ≡ self.old.room) }
    {
        let place = self.cursor.place();
        let clocks = self.names.clocks.as_slice();
        let clock = read_name(clocks, &mut self.cursor, Expected::KnownClock)?;
        Ok((place, clock))
    }

    fn test(&mut self, owner: Owner, tests: &mut Vec<Test>) -> Result<(), Mistake>
        ensures room { OnOk result (Took self.old.room self.new.room (3 * vec_len tests.old) (3 * vec_len tests.new)) }
        ensures more { OnOk result (vec_len tests.old < vec_len tests.new) }
    {
        let (start, clock) = self.clock()?;
        let comparison = read_comparison(&mut self.cursor, owner)?;
        let bound = read_bound(&mut self.cursor)?;
        self.room.take(numbers_of(comparison), start)?;
        push_test(tests, Clock(clock), comparison, bound)
    }

    // Tests with commas between them.
    fn tests(&mut self, owner: Owner) -> Result<Vec<Test>, Mistake>
        ensures { IfOk result (λ tests. Took self.old.room self.new.room 0 (3 * vec_len tests)) }
    {
        let mut tests = Vec::new(self.heap);
        loop {
            self.test(owner, &mut tests)?;
            if !self.cursor.take_sign(Sign::Comma) {
                return Ok(tests);
            }
        }
    }

    // The tests of a position, if it has any.
    fn invariant(&mut self) -> Result<Vec<Test>, Mistake>
        ensures { IfOk result (λ tests. Took self.old.room self.new.room 0 (3 * vec_len tests)) }
    {
        if self.cursor.take_sign(Sign::Colon) {
            return self.tests(Owner::Location);
        }
        self.cursor.expect_end(Expected::AfterPosition)?;
        Ok(Vec::new(self.heap))
    }

    // The tests of a step, if it has any.
    fn guard(&mut self) -> Result<Vec<Test>, Mistake>
        ensures { IfOk result (λ tests. Took self.old.room self.new.room 0 (3 * vec_len tests)) }
    {
        if self.cursor.take_word("when") {
            return self.tests(Owner::Edge);
        }
        if self.cursor.text() != Some("reset") {
            self.cursor.expect_end(Expected::AfterTarget)?;
        }
        Ok(Vec::new(self.heap))
    }

    // The clocks that a step sets back, if any.
    fn resets(&mut self) -> Result<Vec<u32>, Mistake>
        ensures { IfOk result (λ resets. Took self.old.room self.new.room 0 (vec_len resets)) }
    {
        let mut resets = Vec::new(self.heap);
        if !self.cursor.take_word("reset") {
            return Ok(resets);
        }
        loop {
            let (start, clock) = self.clock()?;
            self.room.take(RESET_NUMBERS, start)?;
            resets.push(clock)?;
            if !self.cursor.goes_on() {
                return Ok(resets);
            }
        }
    }

    fn position(&mut self) -> Result<Position, Mistake>
        ensures { IfOk result (λ position. Took self.old.room self.new.room 1 (position_size position)) }
    {
        let _number = read_name(
            self.names.positions.as_slice(),
            &mut self.cursor,
            Expected::PositionName,
        )?;
        let tests = self.invariant()?;
        self.cursor.expect_end(Expected::AfterTest)?;
        Ok(Position { tests })
    }

    fn step(&mut self) -> Result<Step, Mistake>
        ensures { IfOk result (λ step. Took self.old.room self.new.room 4 (step_size step)) }
    {
        let positions = self.names.positions.as_slice();
        let source = read_name(positions, &mut self.cursor, Expected::KnownPosition)?;
        if !self.cursor.take_sign(Sign::Arrow) {
            return Err(self.cursor.mistake(Expected::Arrow));
        }
        let target = read_name(positions, &mut self.cursor, Expected::KnownPosition)?;
        let tests = self.guard()?;
        let resets = self.resets()?;
        self.cursor.expect_end(Expected::AfterGuard)?;
        Ok(Step {
            source,
            target,
            tests,
            resets,
        })
    }

    fn line(&mut self, clockwork: &mut Clockwork) -> Result<(), Mistake>
        ensures { OnOk result (Took self.old.room self.new.room (parts_size clockwork.old) (parts_size clockwork.new)) }
    {
        let start = self.cursor.place();
        if self.cursor.take_word("position") {
            self.room.take(POSITION_NUMBERS, start)?;
            clockwork.positions.push(self.position()?)?;
        } else if self.cursor.take_word("step") {
            self.room.take(STEP_NUMBERS, start)?;
            clockwork.steps.push(self.step()?)?;
        } else if !self.cursor.take_word("clocks") {
            self.cursor.expect_end(Expected::Statement)?;
        }
        Ok(())
    }
}

// A mistake in a line of the text, if there is one, however many numbers its parts have. These are not kept: a text with too many
// must not take more memory than others (a rule of the project, 4 MiB for all buffers). Heap, names and text by themselves, here and below: a struct of the three would be made at one
// call, and taken apart in each function.
fn check_lines(heap: Global, names: &Names, text: &str) -> Result<(), Mistake> {
    for (index, line) in text.lines().enumerate() {
        let mut reader = Reader::new(heap, names, index, line, Room::boundless());
        reader.line(&mut Clockwork::new(heap, 0))?;
    }
    Ok(())
}

fn read_lines(heap: Global, names: &Names, text: &str) -> Result<Clockwork, Mistake>
    ensures { IfOk result (λ clockwork. length (write (automaton clockwork)) ≤ 16384) }
{
    let clocks = u32::try_from(names.clocks.len()).unwrap_or(u32::MAX);
    let mut room = Room::new();
    let mut clockwork = Clockwork::new(heap, clocks);
    for (index, line) in text.lines().enumerate() {
        let mut reader = Reader::new(heap, names, index, line, room);
        reader.line(&mut clockwork)?;
        room = reader.room;
    }
    Ok(clockwork)
}

// The parts of the clockwork that the text draws. Its clocks and positions are numbered as in `names`. That they have too many
// numbers is told only where no line has another mistake.
pub fn read_all(heap: Global, names: &Names, text: &str) -> Result<Clockwork, Mistake>
    ensures { IfOk result (λ clockwork. length (write (automaton clockwork)) ≤ 16384) }
{
    let read = read_lines(heap, names, text);
    if let Err(Mistake::Row(_)) = &read {
        check_lines(heap, names, text)?;
    }
    read
}
