// Rows of eight words.
ghost use Rattle.std.specs.Prelude.{◌≡◌, ◌*◌};
ghost use Rattle.std.proofs.lemmas.List.Edits.{sets};

use words::put_words;

// Writes a row.
pub fn put_row(out: &mut [u32], row: u32, cells: [u32; 8])
    ensures { out.new ≡ sets out.old (8 * row) cells }
{
    put_words(out, 8 * (row as usize), &cells);
}
