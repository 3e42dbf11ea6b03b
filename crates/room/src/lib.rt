// Whether a layout has room: the last three answers of document 01, and what was laid.
#![tactic(auto)]

ghost use Rattle.std.specs.Prelude.{◌≡◌};
ghost use Rattle.room.specs.Laid.{laid_for};

// The most bytes of a source and of a layout.
pub const LIMIT: usize = 262144;

// The bytes of an area that are enough for any source: where they are too few, an offset or a count of the layout doesn't fit a word, or it is over the limit.
pub const AREA: usize = 5 * LIMIT / 2;

// The highest offset or count that fits a word.
pub const HIGHEST: usize = 65535;

// The most bytes of a class table whose count fits a word.
pub const LONGEST: usize = 131076;

// Why nothing was laid: nothing of the table survives, its layout is over the limit or has an offset or a count that doesn't fit a word, or the buffer is shorter than the layout, whose length stands here.
#[derive(Clone, Copy, Debug, PartialEq, Eq)]
pub enum NotLaid {
    Nothing,
    TooBig,
    NoRoom(usize),
}

// What becomes of a layout of `size` bytes in a buffer of `len` bytes: it is laid, with its length, or not; `fits` says whether each of its offsets and counts fits a word.
#[tactic(auto, unfolding(crate::specs::Laid::laid_for, meaning::specs::Subset::limit))]
pub fn room(size: usize, fits: bool, len: usize) -> Result<usize, NotLaid>
    ensures { result ≡ laid_for size fits len }
{
    if LIMIT < size {
        return Err(NotLaid::TooBig);
    }
    if !fits {
        return Err(NotLaid::TooBig);
    }
    if len < size {
        return Err(NotLaid::NoRoom(size));
    }
    Ok(size)
}
