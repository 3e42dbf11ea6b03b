// Format 1 of each kind: the table is put together around its kept sets.
#![tactic(auto)]

ghost use Rattle.std.specs.Prelude.{[], ◌∷◌, ◌++◌, ◌≡◌, ◌-◌, ◌≤◌, length, ltb};
ghost use Rattle.laws.specs.Written.{Wrote};
ghost use Rattle.placed_sets.specs.Sorts.{more_of, header_size};
ghost use Rattle.kept_header.specs.Table.{Finishes, Finished};

use area::{put_three, put_two};
use area_parts::write_cover;
use handing::lessen;
use placed_sets::{Sort, header_size};
use room::HIGHEST;

// The words before the offsets of the sets; the place after them.
fn write_header(sort: Sort, area: &mut [u8], cover: usize, k: usize) -> usize
    requires { header_size sort ≤ length area.old }
    ensures { Wrote area.old 0 (1 ∷ cover ∷ (more_of sort ++ (k ∷ []))) area.new result }
{
    match sort {
        Sort::Rules(_) => put_three(area, 0, 1, cover, k),
        Sort::Ligatures => put_three(area, 0, 1, cover, k),
        Sort::Pairs(f) => {
            let p = put_three(area, 0, 1, cover, f.n1);
            put_two(area, p, f.n2, k)
        }
    }
}

// The table of the `k` kept sets, which stand from `first` up to `p`, with their places written as their offsets: the offsets without the gap before `first`, the coverage behind the sets, and the header; the place after it.
pub fn finish(
    sort: Sort,
    t: &[u32],
    notes: usize,
    k: usize,
    first: usize,
    p: usize,
    area: &mut [u8],
) -> usize
    requires { Finishes sort t.now notes k first p area.old }
    ensures { Finished sort t.now notes k first p area.old area.new result }
{
    let slots = header_size(sort);
    let gap = first - (slots + 2 * k);
    lessen(area, slots, k, gap);
    let end = write_cover(t, notes, k, area, p);
    write_header(sort, area, p - gap, k);
    end
}

// Whether the coverage's offset, which is the highest, fits a word: the coverage stands at `p` while the gap between `head` and `first` is open.
pub fn cover_fits(head: usize, first: usize, p: usize) -> bool
    requires { (head ≤ first) × (first ≤ p) }
    ensures { result ≡ ltb (p - (first - head)) 65536 }
{
    p - (first - head) <= HIGHEST
}
