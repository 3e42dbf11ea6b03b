// Where the fields of value records stand in a pair record, and the places of those that stay.
#![tactic(auto)]

ghost use Rattle.std.specs.Prelude.{◌≡◌, [], ◌∷◌, ◌+◌, ◌*◌, ◌<◌, ◌≤◌, length};
ghost use Rattle.meaning.specs.Tables.{field_count};
ghost use Rattle.pair_places.specs.Formats.{fields, field_place, kept_places, places_of};
ghost use Rattle.pair_places.specs.Puts.{Puts};

// How many fields a value record of the format `f` has: one for each set bit of the lower eight.
pub fn field_count(f: usize) -> usize
    ensures { (result ≡ field_count f) × (result ≤ 8) }
{
    f % 2 + f / 2 % 2 + f / 4 % 2 + f / 8 % 2 + f / 16 % 2 + f / 32 % 2 + f / 64 % 2 + f / 128 % 2
}

// Where the field `k` stands in a pair record, if the value record of the format `f` starts there at `start`; 0 where the format has no such field.
pub fn field_place(start: usize, f: usize, k: usize) -> usize
    requires { (start ≤ 18) × (0 < k) }
    ensures { (result ≡ field_place start f k) × (result ≤ 34) }
{
    if f / k % 2 != 1 {
        return 0;
    }
    start + 2 * field_count(f % k)
}

// The place of the field `k` put at `at`, if the new format has the field; the place after it.
fn put_place(start: usize, f: usize, new: usize, k: usize, places: &mut [u32], at: usize) -> usize
    requires { (start ≤ 18) × (0 < k) × (at < length places.old) }
    ensures { Puts places.old at (kept_places start f new (k ∷ [])) places.new result × (result ≤ at + 1) }
{
    if new / k % 2 != 1 {
        return at;
    }
    places[at] = field_place(start, f, k) as u32;
    at + 1
}

// The places of the fields that the new format has, from `at` on; the place after them.
fn put_places(start: usize, f: usize, new: usize, places: &mut [u32], at: usize) -> usize
    requires { (start ≤ 18) × (at + 4 ≤ length places.old) }
    ensures { Puts places.old at (kept_places start f new fields) places.new result × (result ≤ at + 4) }
{
    let a = put_place(start, f, new, 1, places, at);
    let b = put_place(start, f, new, 2, places, a);
    let c = put_place(start, f, new, 4, places, b);
    put_place(start, f, new, 8, places, c)
}

// The places of the fields of the new formats `n1` and `n2` in a pair record of the formats `f1` and `f2`, from the front of `places` on; how many they are.
pub fn kept_places(f1: usize, f2: usize, n1: usize, n2: usize, places: &mut [u32]) -> usize
    requires { 8 ≤ length places.old }
    ensures { Puts places.old 0 (places_of f1 f2 n1 n2) places.new result × (result ≤ 8) }
{
    let first = put_places(2, f1, n1, places, 0);
    put_places(2 + 2 * field_count(f1), f2, n2, places, first)
}
