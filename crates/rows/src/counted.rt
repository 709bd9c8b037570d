// A part of a row whose length stands in front of it.
ghost use Rattle.std.specs.Prelude.{◌≡◌, ℕ, ◌*◌, List, ◌∷◌, ◌++◌, length, drop, IfSome};
ghost use Rattle.rows.specs.Parts.{PartAt, Behind};

// The elements whose number stands at `at`, so many words for each, and the place behind them; none where the row ends before.
pub(crate) fn part_at(row: &[u32], at: usize, words_each: usize) -> Option<(&[u32], usize)>
    ensures part { (k : ℕ) (ws rest : List ℕ) → drop at row.now ≡ k ∷ (ws ++ rest) → length ws ≡ words_each * k → PartAt row.now ws rest result }
    ensures further { IfSome result (Behind row.now at) }
{
    let (count, rest) = row.get(at..)?.split_first()?;
    let length = words_each.checked_mul(*count as usize)?;
    let words = rest.get(..length)?;
    Some((words, at + 1 + length))
}
