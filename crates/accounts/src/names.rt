// The names of clocks and positions, in the order of their numbers.
ghost use Rattle.std.specs.Prelude.{◌≡◌, string_bytes};
ghost use Rattle.accounts.specs.Lines.{name_of};

#[derive(Clone, Copy)]
pub struct Names<'a> {
    pub clocks: &'a [String],
    pub positions: &'a [String],
}

// The name of a number; no text where there is none.
pub fn name_of(names: &[String], number: usize) -> &str
    ensures { result.now ≡ name_of string_bytes names.now number }
{
    // A match: with `map_or` and a closure `returns` stayed open, where each arm here ends by one lemma on the list.
    match names.get(number) {
        Some(name) => name.as_str(),
        None => "",
    }
}
