// What a walk leaves to later entries.
ghost use Rattle.std.specs.Prelude.{◌≤◌};

// The walk's sheet and open entries, and how far the numbers in these are raised.
#[derive(Clone, Copy)]
pub struct Left<'s> {
    pub sheet: &'s [u32],
    pub entries: &'s [u32],
    pub base: u32,
    ghost low: { base ≤ 2048000 },
}
