// What is printed: opinions on positions, differences, and counts.
ghost use Rattle.std.specs.Prelude.{◌≡◌, ◌<◌, ◌≤◌, IfOk, IfSome, MatchOption, is_some, cond, slice_set, slice_index_or, vec_len};
ghost use Rattle.automata.specs.Automata as automata;
ghost use Rattle.automata.specs.Rows.{Reads};
ghost use Rattle.rows.specs.Viewed.{value_of};
ghost use Rattle.search.specs.Answering.{needed};
ghost use Rattle.sixtieths.specs.Counting.{one_added, tallied, place_of};
ghost use Rattle.sixtieths.specs.Opinions.{AllOpinions, differing};
ghost use Rattle.sixtieths.specs.Spaces.{states_of};
ghost use Rattle.sixtieths.specs.declared.counts.Tally.{Tally};

use crate::comparison::Kind;
use crate::counts::{Counts, Tally};
use crate::grid_search::Space;
use crate::opinions::{Opinion, WORK, opinions};
use crate::problems::fail;
use rows::numbers::Numbers;
use rows::reader;
use std::alloc::AllocError;
use std::{fmt, io};

// Where it is printed, the words that are lent for the answers, and what was counted.
#[derive(Drop)]
pub struct Reporter<'a> {
    pub rt: &'a HostRuntime,
    pub work: Vec<u32>,
    pub counts: Counts,
}

// What differs about an opinion.
#[derive(Clone, Copy)]
struct Difference<'a>(&'a Opinion);

impl<'a> fmt::Display for Difference<'a> {
    fn fmt<W: fmt::Write>(&self, f: &mut fmt::Formatter<W>) -> fmt::Result {
        match self.0.first.map(|first| first.followed) {
            Some(Err(astray)) => write!(f, "and {astray}"),
            _ => f.write_str("which contradict each other"),
        }
    }
}

impl<'a> Reporter<'a> {
    // Nothing is counted yet, and there are words for rows of any length.
    pub fn new(rt: &'a HostRuntime) -> Result<Self, AllocError>
        ensures words { IfOk result (λ reporter. vec_len reporter.work ≡ needed 16384 16384) }
        ensures counts { IfOk result (λ reporter. (reporter.counts.followed ≡ 0) × (reporter.counts.differences ≡ 0)) }
    {
        Ok(Reporter {
            rt,
            work: vec![in rt.alloc(); 0; WORK]?,
            counts: Counts::default(),
        })
    }

    // Nothing is counted any more; the words stay as they are.
    pub fn count_anew(&mut self)
        ensures counts { (self.new.counts.followed ≡ 0) × (self.new.counts.differences ≡ 0) }
        ensures words { self.new.work ≡ self.old.work }
    {
        self.counts = Counts::default();
    }

    // The opinions on the automaton of a row; none where it has too many states, and an error where the row is none.
    pub fn opinions_on(&mut self, row: &[u32]) -> io::Result<Option<Vec<Opinion>>>
        ensures row { IfOk result (λ _. (a : automata.Automaton) × Reads row.now a) }
        ensures held { IfOk result (λ all. MatchOption all (4000000 < states_of (value_of row.now)) (λ _. states_of (value_of row.now) ≤ 4000000)) }
        ensures judged { IfOk result (λ all. IfSome all (λ opinions. AllOpinions opinions.items)) }
        ensures counts { self.new.counts ≡ self.old.counts }
        ensures words { vec_len self.new.work ≡ vec_len self.old.work }
    {
        let rt = self.rt;
        let automaton = reader::read(row).try_map_err(|refusal| {
            let word = refusal.word;
            let numbers = Numbers(row);
            fail(
                rt,
                io::ErrorKind::InvalidData,
                format_args!("sixtieths: a row that is refused at its word {word}: {numbers}"),
            )
        })?;
        let Some(space) = Space::new(automaton) else {
            return Ok(None);
        };
        let all = opinions(rt.alloc(), space, self.work.as_mut_slice()).try_map_err(|fault| {
            fail(rt, io::ErrorKind::Other, format_args!("sixtieths: {fault}"))
        })?;
        Ok(Some(all))
    }

    // One line with both answers for a position.
    pub fn print_opinion(&self, file: &str, position: &str, opinion: &Opinion) -> io::Result<()> {
        println!(self.rt; "{file}, {position}: {opinion}")
    }

    fn print_difference(&self, row: &[u32], position: usize, opinion: &Opinion) -> io::Result<()> {
        let difference = Difference(opinion);
        let row = Numbers(row);
        println!(self.rt; "difference at position {position}: {opinion}, {difference}; row {row}")
    }

    // Counts an opinion, and prints it where it differs from the answer.
    pub fn note(&mut self, row: &[u32], position: usize, opinion: &Opinion) -> io::Result<()>
        ensures tallies { (other : Tally) → self.new.counts.tallies ≡ slice_set self.old.counts.tallies (place_of opinion.now.kind) (tallied (slice_index_or self.old.counts.tallies (place_of opinion.now.kind) other) opinion.now.finding) }
        ensures followed { self.new.counts.followed ≡ cond (is_some opinion.now.first) (one_added self.old.counts.followed) self.old.counts.followed }
        ensures differences { self.new.counts.differences ≡ cond (differing opinion.now) (one_added self.old.counts.differences) self.old.counts.differences }
    {
        self.counts.note(opinion.kind, opinion.finding);
        if opinion.first.is_some() {
            self.counts.note_followed();
        }
        if opinion.differs() {
            self.counts.note_difference();
            self.print_difference(row, position, opinion)?;
        }
        Ok(())
    }

    fn print_tally(&self, kind: Kind) -> io::Result<()> {
        let tally = self.counts.tally(kind);
        let positions = tally.positions();
        let Tally {
            exact,
            later,
            missing,
            ..
        } = tally;
        println!(self.rt; "{kind:<32}{positions:>10}{exact:>10}{later:>10}{missing:>10}")
    }

    pub fn print_counts(&self) -> io::Result<()> {
        println!(self.rt;
            "answer                           positions   as told     later not found"
        )?;
        for kind in Kind::ALL {
            self.print_tally(kind)?;
        }
        let followed = self.counts.followed;
        let differences = self.counts.differences;
        println!(self.rt; "runs gone through again: {followed}")?;
        println!(self.rt; "differences: {differences}")
    }
}
