// Cells of two bytes each, the high byte first.
#![tactic(auto, unfolding(crate::specs::Cells::cell_at))]

ghost use Rattle.std.specs.Prelude.{◌≡◌, ℕ, ◌+◌, ◌<◌, ◌≤◌, length, map, ◌≢◌};
ghost use Rattle.columns.specs.Cells.{number_of, cell_at, pair_at, word_at, Wrote};

// Cell `i`, and 0 past the last.
pub(crate) fn cell(cells: &[[u8; 2]], i: usize) -> u16
    ensures { result ≡ cell_at cells.now i }
{
    u16::from_be_bytes(cells.get(i).copied().unwrap_or([0, 0]))
}

// Two cells as one number. Pairs make words as cells make pairs, but one function for both would need a trait of numbers
// that are half as wide, and by `from_be_bytes` four or eight bytes would be named, for two bodies of two lines.
pub(crate) fn pair(cells: &[[u8; 2]], i: usize) -> u32
    requires { i + 2 ≤ length cells.now }
    ensures { result ≡ pair_at (cell_at cells.now) i }
{
    let low = cell(cells, i + 1);
    u32::from(cell(cells, i)) * 0x1_0000 + u32::from(low)
}

// Four cells as one number.
pub(crate) fn word(cells: &[[u8; 2]], i: usize) -> u64
    requires { i + 4 ≤ length cells.now }
    ensures { result ≡ word_at (cell_at cells.now) i }
{
    let low = pair(cells, i + 2);
    u64::from(pair(cells, i)) * 0x1_0000_0000 + u64::from(low)
}

// Puts one cell.
pub(crate) fn put_cell(cells: &mut [[u8; 2]], i: usize, value: u16)
    requires { i < length cells.old }
    ensures there { cell_at cells.new i ≡ value }
    ensures elsewhere { (j : ℕ) → (j ≢ i) → cell_at cells.new j ≡ cell_at cells.old j }
{
    cells[i] = value.to_be_bytes();
}

// Puts numbers one after another, a cell each; by their index, since no clause says what is written through a zip.
pub(crate) fn write(cells: &mut [[u8; 2]], at: usize, values: &[u16])
    requires { at + length values.now ≤ length cells.old }
    ensures { Wrote (cell_at cells.old) (cell_at cells.new) at values.now }
{
    for (i, value) in values.iter().enumerate() {
        put_cell(cells, at + i, *value);
    }
}

// Puts cells that lie one after another.
#[tactic(auto, using(crate::proofs::Bytes::copied))]
pub(crate) fn copy(cells: &mut [[u8; 2]], at: usize, from: &[[u8; 2]])
    requires { at + length from.now ≤ length cells.old }
    ensures { Wrote (cell_at cells.old) (cell_at cells.new) at (map number_of from.now) }
{
    cells[at..at + from.len()].copy_from_slice(from);
}
