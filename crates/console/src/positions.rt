// Positions by their names, or by their numbers where they have none.
ghost use Rattle.std.specs.Prelude.{◌≡◌, map, position, IfOk, string_bytes};
ghost use Rattle.std.specs.Str.{bytes_eq};
ghost use Rattle.console.specs.Names.{name_text, FoundIs, KnownIs};
ghost use Rattle.console.specs.Unknowns.{UnknownIs};

use crate::messages::Problem;
use crate::names::Name;
use crate::nearness::nearest;
use crate::numbers;
use std::alloc::{AllocError, Global};

// What a word that names no position is told with: a name that is nearly it, and what there is.
#[derive(Debug, Drop)]
pub struct Unknown {
    pub word: String,
    pub nearest: Option<String>,
    pub known: String,
}

// The positions of a clockwork: their names, if they have any, and how many there are.
#[derive(Clone, Copy)]
pub struct Positions<'a> {
    pub names: &'a [String],
    pub count: usize,
}

// The first position that has a name.
fn find_name(names: &[String], word: &str) -> Option<usize>
    ensures { result ≡ position (λ name. bytes_eq (string_bytes name) word.now) names.now }
{
    names.iter().position(|name| name.as_str() == word)
}

// The name of a position: its number where it has no name.
pub fn name_of(heap: Global, names: &[String], position: usize) -> Result<String, AllocError>
    ensures { IfOk result (λ name. string_bytes name ≡ name_text (map string_bytes names.now) position) }
{
    let name = Name {
        known: names,
        letters: "",
        number: position,
    };
    format!(in heap; "{name}")
}

impl Positions<'_> {
    // The position that has a name; where none has it, the word may be the number of one.
    pub fn find(&self, word: &str) -> Option<usize>
        ensures { FoundIs (map string_bytes self.now.names.now) self.now.count word.now result }
    {
        // No `or_else`: the goal `returns` stayed open, since what the closure promises of the number is out of reach of its proof.
        if let Some(position) = find_name(self.names, word) {
            return Some(position);
        }
        let number = numbers::parse(word.as_bytes())? as usize;
        (number < self.count).then_some(number)
    }

    // The names with commas between them, or the numbers where there are no names.
    fn list(&self, heap: Global) -> Result<String, AllocError>
        ensures { IfOk result (λ text. KnownIs self.now.names.now self.now.count (string_bytes text)) }
    {
        if self.names.is_empty() {
            let last = self.count.saturating_sub(1);
            return format!(in heap; "0 to {last}");
        }
        self.names.join(heap, ", ")
    }

    // Why a word names no position.
    pub fn refuse(&self, heap: Global, word: &str) -> Result<Unknown, Problem>
        ensures { IfOk result (UnknownIs self.now.names.now self.now.count word.now) }
    {
        Ok(Unknown {
            word: String::from_str(heap, word)?,
            nearest: nearest(heap, self.names, word)?.cloned()?,
            known: self.list(heap)?,
        })
    }
}
