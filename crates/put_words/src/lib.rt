// Big-endian words, written where there is room.
#![tactic(auto)]

ghost use Rattle.std.specs.Prelude.{◌≡◌, [], ◌∷◌, ◌+◌, ◌<◌, set};
ghost use Rattle.std.proofs.lemmas.List.Edits.{sets};
ghost use Rattle.meaning.specs.Words.{bytes2, flat};

// The byte `b` at `at`, where there is room for it.
pub fn put_byte(out: &mut [u8], at: usize, b: usize)
    requires { b < 256 }
    ensures { out.new ≡ set out.old at b }
{
    if at < out.len() {
        out[at] = b as u8;
    }
}

// The word's two bytes from `at` on, each where there is room for it; the place after them.
pub fn put(out: &mut [u8], at: usize, w: usize) -> usize
    requires { at < 0x2_0000_0000_0000 }
    ensures { (result ≡ at + 2) × (out.new ≡ sets out.old at (bytes2 w)) }
{
    if at + 1 < out.len() {
        out[at] = (w / 256 % 256) as u8;
        out[at + 1] = (w % 256) as u8;
        return at + 2;
    }
    put_byte(out, at, w / 256 % 256);
    at + 2
}

// An entry of two words from `at` on, where there is room; the place after it.
pub fn put_entry(out: &mut [u8], at: usize, a: usize, b: usize) -> usize
    requires { at < 0x1_0000_0000_0000 }
    ensures { (result ≡ at + 4) × (out.new ≡ sets out.old at (flat (a ∷ b ∷ []))) }
{
    let p = put(out, at, a);
    put(out, p, b)
}

// A record of three words from `at` on, where there is room; the place after it.
pub fn put_record(out: &mut [u8], at: usize, a: usize, b: usize, c: usize) -> usize
    requires { at < 0x1_0000_0000_0000 }
    ensures { (result ≡ at + 6) × (out.new ≡ sets out.old at (flat (a ∷ b ∷ c ∷ []))) }
{
    let p = put(out, at, a);
    let q = put(out, p, b);
    put(out, q, c)
}
