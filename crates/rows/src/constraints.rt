// Constraints on clocks, by value, and lists of them as parts of a row.
ghost use Rattle.std.specs.Prelude.{◌≡◌, ℕ, List, ◌∷◌, ◌++◌, length, drop, codes, decimal, nat_lt, Some, IfSome};
ghost use Rattle.std.specs.Iterator.{at_most};
ghost use Rattle.automata.specs.Rows.{write_constraints};
ghost use Rattle.automata.specs.Automata.{nth};
ghost use Rattle.automata.specs.Automata as automata;
ghost use Rattle.automata.specs.Rows.{code, upper};
ghost use Rattle.rows.specs.Parse.{relation_of};
ghost use Rattle.rows.specs.Parts.{relation_value, relation_text, RelationRead, relates, relations_of, ConstraintIs, ConjunctionAt, Behind};
ghost use Rattle.rows.specs.Values.{constraints_value, conjunction_value, NextConstraint};

use crate::counted::part_at;
use std::error::Error;
use std::fmt;

// The number of a clock.
#[derive(Clone, Copy, Debug, PartialEq, Eq)]
pub struct Clock(pub u32);

// How a clock is compared with a whole number.
#[derive(Clone, Copy, Debug, PartialEq, Eq)]
pub enum Relation {
    AtMost,
    Below,
    AtLeast,
    Above,
}

// A number that stands for no relation.
#[derive(Clone, Copy, Debug, PartialEq, Eq)]
pub struct UnknownRelation(pub u32);

// By hand, as `Error` below: of the text a clause speaks, and thiserror's derive writes none.
impl fmt::Display for UnknownRelation {
    ghost output = { λ unknown. Some (codes "no relation has number " ++ decimal unknown.0) };

    fn fmt<W: fmt::Write>(&self, f: &mut fmt::Formatter<W>) -> fmt::Result {
        write!(f, "no relation has number {}", self.0)
    }
}

impl Error for UnknownRelation {}

impl TryFrom<u32> for Relation {
    type Error = UnknownRelation;

    ghost try_from_gives = { RelationRead };

    fn try_from(word: u32) -> Result<Self, UnknownRelation> {
        match word {
            0 => Ok(Relation::AtMost),
            1 => Ok(Relation::Below),
            2 => Ok(Relation::AtLeast),
            3 => Ok(Relation::Above),
            _ => Err(UnknownRelation(word)),
        }
    }
}

impl From<Relation> for u32 {
    ghost from_gives = { λ relation word. word ≡ code (relation_value relation) };

    fn from(relation: Relation) -> u32 {
        match relation {
            Relation::AtMost => 0,
            Relation::Below => 1,
            Relation::AtLeast => 2,
            Relation::Above => 3,
        }
    }
}

impl fmt::Display for Relation {
    ghost output = { λ relation. Some (relation_text (relation_value relation)) };

    fn fmt<W: fmt::Write>(&self, f: &mut fmt::Formatter<W>) -> fmt::Result {
        f.write_str(match self {
            Relation::AtMost => "<=",
            Relation::Below => "<",
            Relation::AtLeast => ">=",
            Relation::Above => ">",
        })
    }
}

impl Relation {
    // Whether it bounds a clock from above.
    pub fn bounds_above(self) -> bool
        ensures { result ≡ upper (relation_value self) }
    {
        matches!(self, Relation::AtMost | Relation::Below)
    }

    // Whether the value stands so to the bound.
    pub fn holds<T: Ord + Copy>(self, value: T, bound: T) -> bool
        ensures { result ≡ relates T.cmp self value bound }
    {
        match self {
            Relation::AtMost => value <= bound,
            Relation::Below => value < bound,
            Relation::AtLeast => value >= bound,
            Relation::Above => value > bound,
        }
    }
}

// Whose constraints they are.
#[derive(Clone, Copy, Debug, PartialEq, Eq)]
pub enum Owner {
    Location,
    Edge,
}

impl Owner {
    // An invariant bounds clocks from above only.
    pub fn takes(self, relation: Relation) -> bool
        ensures { result ≡ nat_lt (code (relation_value relation)) (relations_of self) }
    {
        match self {
            Owner::Location => relation.bounds_above(),
            Owner::Edge => true,
        }
    }
}

#[derive(Clone, Copy, Debug, PartialEq, Eq)]
pub struct Constraint {
    pub clock: Clock,
    pub relation: Relation,
    pub bound: u32,
}

// The constraints of a guard or an invariant: three words of the row for each.
#[derive(Clone, Copy)]
pub struct Conjunction<'a> {
    pub words: &'a [u32],
}

// The constraints of a conjunction that are still to come.
#[derive(Clone, Copy)]
pub struct Constraints<'a> {
    words: &'a [u32],
}

// What the second word of a constraint says; any number above 3 counts as 3.
pub fn decode_relation(word: u32) -> Relation
    ensures { relation_value result ≡ relation_of word }
{
    Relation::try_from(word).unwrap_or(Relation::Above)
}

impl<'a> Conjunction<'a> {
    pub fn len(&self) -> usize
        ensures { result ≡ length (conjunction_value self.now) }
    {
        self.words.len() / 3
    }

    // The constraint at a place, or none behind the last.
    pub fn get(&self, place: usize) -> Option<Constraint>
        ensures { ConstraintIs (nth (conjunction_value self.now) place) result }
    {
        let [clock, relation, bound, ..] = *self.words.get(place.checked_mul(3)?..)? else {
            return None;
        };
        Some(Constraint {
            clock: Clock(clock),
            relation: decode_relation(relation),
            bound,
        })
    }

    pub fn iter(&self) -> Constraints<'a>
        ensures { constraints_value result.words.now ≡ conjunction_value self.now }
    {
        Constraints { words: self.words }
    }
}

impl<'a> IntoIterator for Conjunction<'a> {
    type Item = Constraint;

    type IntoIter = Constraints<'a>;

    ghost into_iter_gives = { λ conjunction constraints. constraints_value constraints.words.now ≡ conjunction_value conjunction };

    fn into_iter(self) -> Constraints<'a> {
        self.iter()
    }
}

impl<'a> Iterator for Constraints<'a> {
    type Item = Constraint;

    ghost next_gives = { λ s r t. NextConstraint (constraints_value s.words.now) r (constraints_value t.words.now) };

    ghost remaining = { λ s. at_most (length s.words.now) };

    fn next(&mut self) -> Option<Constraint> {
        let [clock, relation, bound, rest @ ..] = self.words else {
            return None;
        };
        self.words = rest;
        Some(Constraint {
            clock: Clock(*clock),
            relation: decode_relation(*relation),
            bound: *bound,
        })
    }
}

// The constraints whose number stands at `at`, and the place behind them; none where the row ends before.
pub fn conjunction_at(row: &[u32], at: usize) -> Option<(Conjunction<'_>, usize)>
    ensures part { (cs : List automata.Constraint) (rest : List ℕ) → drop at row.now ≡ length cs ∷ (write_constraints cs ++ rest) → ConjunctionAt row.now cs rest result }
    ensures further { IfSome result (Behind row.now at) }
{
    let (words, end) = part_at(row, at, 3)?;
    Some((Conjunction { words }, end))
}
