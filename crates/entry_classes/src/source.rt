// What the classes of an accepted entry are read from, beside its answer rows.
ghost use Rattle.std.specs.Prelude.{ℕ, ◌^◌, ◌<◌, ◌≤◌, get_or};
ghost use Rattle.definition.specs.Sheet.{rows};

// The entry's sheet, what stands outside, what its walk stored of rows, and how far its numbers are raised.
#[derive(Clone, Copy)]
pub struct Source<'s> {
    pub sheet: &'s [u32],
    pub outside: &'s [u32],
    pub results: &'s [u32],
    pub base: u32,
    // A proof does not see that a word behind a field fits 32 bits.
    ghost fit: { (j : ℕ) → get_or outside.now j 0 < 2 ^ 32 },
    ghost few: { rows sheet.now ≤ 2048 },
    ghost low: { base ≤ 2048000 },
}
