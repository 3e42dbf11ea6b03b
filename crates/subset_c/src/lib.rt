// The cut for other languages: what they call of `subset`, under its own names and clauses.
#![tactic(auto)]

ghost use Rattle.std.specs.Prelude.{◌≡◌};
ghost use Rattle.meaning.specs.Subset.{subset};
ghost use Rattle.refusals.specs.Answers.{decoded};

// The call on numbers and byte slices: its three marks first. The answer is one number: the answer's number times 2^56, plus its length.
#[unsafe(no_mangle)]
pub extern "C" fn gillcurtain_subset(
    kind: u64,
    form: u64,
    layout: u64,
    source: &[u8],
    glyphs: &[u8],
    lookups: &[u8],
    out: &mut [u8],
) -> u64
    ensures { decoded result out.new ≡ subset kind form layout source.now glyphs.now lookups.now out.old }
{
    subset::gillcurtain_subset(kind, form, layout, source, glyphs, lookups, out)
}

// The same with lent scratch, as `subset::subset_in` takes it.
#[unsafe(no_mangle)]
pub extern "C" fn gillcurtain_subset_in(
    kind: u64,
    form: u64,
    layout: u64,
    source: &[u8],
    glyphs: &[u8],
    lookups: &[u8],
    cells: &mut [u32],
    area: &mut [u8],
    out: &mut [u8],
) -> u64
    ensures { decoded result out.new ≡ subset kind form layout source.now glyphs.now lookups.now out.old }
{
    subset::gillcurtain_subset_in(
        kind, form, layout, source, glyphs, lookups, cells, area, out,
    )
}
