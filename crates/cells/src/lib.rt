// Cells of scratch, read and written without a bound: a cell past the end reads as 0 and is not written.
#![tactic(auto)]

ghost use Rattle.std.specs.Prelude.{◌≡◌, ◌<◌, get_or, set};
ghost use Rattle.cells.specs.Cleared.{Cleared};

// The number in cell `i`; 0 past the end.
pub fn cell(t: &[u32], i: usize) -> usize
    ensures { (result ≡ get_or t.now i 0) × (result < 0x1_0000_0000) }
{
    if i < t.len() {
        return t[i] as usize;
    }
    0
}

// The number `v` into cell `i`, where there is one.
pub fn put_cell(t: &mut [u32], i: usize, v: usize)
    requires { v < 0x1_0000_0000 }
    ensures { t.new ≡ set t.old i v }
{
    if i < t.len() {
        t[i] = v as u32;
    }
}

// The number 0 into the first `n` cells.
pub fn clear(t: &mut [u32], n: usize)
    ensures { Cleared n t.old t.new }
{
    let end = n.min(t.len());
    t[..end].fill(0);
}
