// Runs, followed move by move.
ghost use Rattle.std.specs.Prelude.{◌≡◌, ◌≤◌, MatchResult};
ghost use Rattle.automata.specs.Automata.{invariant};
ghost use Rattle.rows.specs.Views.{automaton_value};
ghost use Rattle.replay.specs.Checks.{Decides, HoldsParts};
ghost use Rattle.replay.specs.Meaning.{clock_of};
ghost use Rattle.replay.specs.declared.moments.Move.TheVariants.{Wait, Step};
ghost use Rattle.replay.specs.declared.moments.Fault.TheVariants.{NoDenominator};
ghost use Rattle.replay.specs.Outcomes.{Begins, Advances, Replays};

use crate::changes::{numbered_edge, waited, with_resets};
use crate::checks::{allowed, holds};
use crate::moments::{Fault, Moment, Move};
use rows::edges::Location;
use rows::limits::CLOCKS;
use rows::views::Automaton;

// The start of every run: location 0, all clocks 0, at time 0.
pub fn begin(automaton: &Automaton) -> Result<Moment, Fault>
    ensures { Begins (automaton_value automaton.now) result }
{
    let start = Moment {
        location: Location(0),
        clocks: [0; CLOCKS],
        time: 0,
    };
    // 0 is 0 over every denominator
    allowed(automaton, start.location, 1, &start.clocks)
        .then_some(start)
        .ok_or(Fault::NotAllowedAtStart)
}

// An automaton, and the denominator of the times of its runs.
#[derive(Clone, Copy)]
struct Player<'a> {
    automaton: Automaton<'a>,
    denominator: u64,
    ghost positive: { 1 ≤ denominator },
}

impl<'a> Player<'a> {
    fn new(automaton: &Automaton<'a>, denominator: u64) -> Result<Self, Fault>
        ensures { MatchResult result (λ player. (player.automaton ≡ automaton.now) × (player.denominator ≡ denominator)) (λ fault. (fault ≡ NoDenominator) × (denominator ≡ 0)) }
    {
        if denominator == 0 {
            return Err(Fault::NoDenominator);
        }
        Ok(Player {
            automaton: *automaton,
            denominator,
        })
    }

    // Whether the invariant of the moment's location holds.
    fn is_allowed(&self, moment: &Moment) -> bool
        ensures { Decides result (HoldsParts self.now.denominator (clock_of moment.now) (invariant (automaton_value self.now.automaton) moment.now.location.0)) }
    {
        allowed(
            &self.automaton,
            moment.location,
            self.denominator,
            &moment.clocks,
        )
    }

    // One wait.
    fn wait(&self, moment: &Moment, delay: u64) -> Result<Moment, Fault>
        ensures { Advances (automaton_value self.now.automaton) self.now.denominator moment.now (Wait delay) result }
    {
        let later = waited(moment, delay).ok_or(Fault::NoRoom)?;
        self.is_allowed(&later)
            .then_some(later)
            .ok_or(Fault::InvariantFails)
    }

    // One edge.
    fn step(&self, moment: &Moment, number: u32) -> Result<Moment, Fault>
        ensures { Advances (automaton_value self.now.automaton) self.now.denominator moment.now (Step number) result }
    {
        let edge = numbered_edge(&self.automaton, number).ok_or(Fault::NoSuchStep)?;
        if edge.source != moment.location {
            return Err(Fault::OtherPosition);
        }
        if !holds(&edge.guard, self.denominator, &moment.clocks) {
            return Err(Fault::GuardFails);
        }
        let after = Moment {
            location: edge.target,
            clocks: with_resets(moment.clocks, edge.resets),
            time: moment.time,
        };
        self.is_allowed(&after)
            .then_some(after)
            .ok_or(Fault::InvariantFails)
    }

    fn advance(&self, moment: &Moment, by: Move) -> Result<Moment, Fault>
        ensures { Advances (automaton_value self.now.automaton) self.now.denominator moment.now by result }
    {
        match by {
            Move::Wait(delay) => self.wait(moment, delay),
            Move::Step(number) => self.step(moment, number),
        }
    }
}

// The moment after one move.
pub fn advance(
    automaton: &Automaton,
    denominator: u64,
    moment: &Moment,
    by: Move,
) -> Result<Moment, Fault>
    ensures { Advances (automaton_value automaton.now) denominator moment.now by result }
{
    Player::new(automaton, denominator)?.advance(moment, by)
}

// Goes through all moves, from the start. What is accepted is a run to that location at that time; what is refused is none,
// unless a number has no room or the denominator is 0. Denominator and moves as a struct would be no plainer: `sixtieths` has one denominator for all its runs,
// and `realise` finds the denominator first, so each would make the struct for this call alone.
pub fn replay(automaton: &Automaton, denominator: u64, moves: &[Move]) -> Result<Moment, Fault>
    ensures { Replays (automaton_value automaton.now) denominator moves.now result }
{
    let player = Player::new(automaton, denominator)?;
    let mut moment = begin(automaton)?;
    for next in moves {
        moment = player.advance(&moment, *next)?;
    }
    Ok(moment)
}
