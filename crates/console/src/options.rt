// The words of a call that cannot be understood, and why.
ghost use Rattle.std.specs.Prelude.{◌≡◌, ◌≤◌, Some, length, map, string_bytes, is_some, Decides, MatchResult};
ghost use Rattle.std.specs.Vec.Iter.{into_iter_items};
ghost use Rattle.console.specs.Calls.{OptionIs, FileSet, SetOnce, ValueIs};
ghost use Rattle.console.specs.Numbers.{number_of};
ghost use Rattle.console.specs.Mistakes.{NumberRefused, OptionRefused};

use crate::nearness::nearest;
use crate::numbers;
use std::alloc::{AllocError, Global};
use std::env::Args;
use std::fmt;

// Why a call cannot be understood.
#[derive(Debug, Drop)]
pub enum Mistake {
    Memory,
    Unknown {
        word: String,
        nearest: Option<&'static str>,
    },
    SecondFile(String),
    SecondOutput(String),
    Twice(&'static str),
    NoValue(&'static str),
    Misplaced(&'static str),
    NoNumber {
        option: &'static str,
        word: String,
    },
}

// A mistake in the call of a program.
#[derive(Clone, Copy)]
pub struct BadCall<'a> {
    pub program: &'a str,
    pub mistake: &'a Mistake,
}

// What a call asks for: what the program says of itself, or its work with some options.
#[derive(Drop)]
pub enum Request<T> {
    Help,
    Version,
    Show(T),
}

// By hand: thiserror's `#[from(alloc)]` wants a variant that holds the error, and one message for each variant, where `Unknown` has two.
impl From<AllocError> for Mistake {
    ghost use Rattle.console.specs.declared.options.Mistake.TheVariants.{Memory};

    ghost from_gives = { λ _ mistake. mistake ≡ Memory };

    fn from(_e: AllocError) -> Mistake {
        Mistake::Memory
    }
}

// A word that begins with `-` is an option, but for `-` alone, which is a file.
pub fn is_option(word: &str) -> bool
    ensures { Decides result (OptionIs word.now) }
{
    matches!(word.as_bytes(), [b'-', _, ..])
}

// The file that is named: only one may be.
pub fn set_file(file: &mut Option<String>, word: String) -> Result<(), Mistake>
    ensures { FileSet file.old word result file.new }
{
    set(file, word).map_err(Mistake::SecondFile)
}

// What may be given only once: a second one is handed back.
pub fn set<T: Drop>(place: &mut Option<T>, value: T) -> Result<(), T>
    ensures { SetOnce place.old value result place.new }
{
    if place.is_some() {
        return Err(value);
    }
    *place = Some(value);
    Ok(())
}

// The word after an option that has a value: it must be there, and the option may stand only once.
pub fn value<T>(
    words: &mut Args,
    option: &'static str,
    given: &Option<T>,
) -> Result<String, Mistake>
    ensures value { ValueIs (into_iter_items words.old) option.entry (is_some given.now) result (into_iter_items words.new) }
    ensures no_more { length (into_iter_items words.new) ≤ length (into_iter_items words.old) }
{
    let word = words.next().ok_or(Mistake::NoValue(option))?;
    if given.is_some() {
        return Err(Mistake::Twice(option));
    }
    Ok(word)
}

// No option is called so: told with the option that is nearly it.
pub fn refuse(heap: Global, options: &[&'static str], word: String) -> Mistake
    ensures { OptionRefused (map (λ option. option.now) options.now) word result }
{
    match nearest(heap, options, word.as_str()) {
        Ok(nearest) => Mistake::Unknown {
            nearest: nearest.copied(),
            word,
        },
        Err(error) => Mistake::from(error),
    }
}

// The number that stands after an option.
pub fn number(option: &'static str, word: String) -> Result<u32, Mistake>
    ensures { MatchResult result (λ n. number_of (string_bytes word) ≡ Some n) (λ m. NumberRefused word m) }
{
    numbers::parse(word.as_str().as_bytes()).ok_or(Mistake::NoNumber { option, word })
}

impl fmt::Display for Mistake {
    fn fmt<W: fmt::Write>(&self, f: &mut fmt::Formatter<W>) -> fmt::Result {
        match self {
            Mistake::Memory => f.write_str("not enough memory"),
            Mistake::Unknown { word, nearest } => {
                write!(f, "no option is called `{word}`")?;
                if let Some(nearest) = nearest {
                    write!(f, "; did you mean `{nearest}`?")?;
                }
                Ok(())
            }
            Mistake::SecondFile(word) => write!(
                f,
                "`{word}` is a second file, and only one is read"
            ),
            Mistake::SecondOutput(word) => write!(
                f,
                "`{word}` is a second thing to print, and only one is printed"
            ),
            Mistake::Twice(option) => write!(f, "`{option}` stands twice"),
            Mistake::NoValue(option) => write!(f, "found nothing after `{option}`"),
            Mistake::Misplaced(option) => write!(
                f,
                "`{option}` has no use with what else is asked for"
            ),
            Mistake::NoNumber { option, word } => write!(
                f,
                "found `{word}` after `{option}`, expected a number from 0 to 4294967295"
            ),
        }
    }
}

// As `PROGRAM: ..; `PROGRAM --help` shows the options`.
impl<'a> fmt::Display for BadCall<'a> {
    fn fmt<W: fmt::Write>(&self, f: &mut fmt::Formatter<W>) -> fmt::Result {
        let program = self.program;
        let mistake = self.mistake;
        write!(
            f,
            "{program}: {mistake}; `{program} --help` shows the options"
        )
    }
}
