// Lookups applied to a string: a lookup runs a rule and a rule runs lookups, to depth 8. A string is `n` glyphs in a slice, two bytes a glyph.
#![tactic(auto)]

ghost use Rattle.std.specs.Prelude.{◌≡◌, ◌+◌, ◌*◌, ◌/◌, ◌≤◌, ◌<◌, length};
ghost use Rattle.meaning.specs.Words.{words, entries};
ghost use Rattle.replaying.specs.Listed.{lookups_of};
ghost use Rattle.replaying.specs.Applying.{apply, run_records, sweep_all, run};
ghost use Rattle.replay_laws.specs.Turns.{onward};
ghost use Rattle.lookup_list.specs.Ready.{Ready, source_at};
ghost use Rattle.steps.specs.Stepping.{Room, Stepped, Ruled};

use asking::{Asked, ask_at, source_word};
use put_words::put;
use rules::Row;

// How deep lookups may run; listed ones stand at depth 1.
const DEPTH: usize = 8;

// A lookup would run deeper than `DEPTH`.
#[derive(Clone, Copy)]
pub struct TooDeep;

// Applies a lookup once at a place; `depth` levels may be run, this one counted. How many glyphs it took: 0 where it matched nothing.
#[cycle(lookup_step_record_step)]
fn lookup_step(
    list: &[u8],
    buffer: &[u8],
    string: &mut [u8],
    n: usize,
    lookup: usize,
    place: usize,
    depth: usize,
) -> Result<usize, TooDeep>
    requires { Ready list.now buffer.now × Room n string.old × (place + 65536 * depth < 0x1_0000_0000_0000) }
    ensures { Stepped (apply depth (lookups_of list.now buffer.now) lookup (words string.old 0 n) place) n result string.new }
{
    if depth == 0 {
        return Err(TooDeep);
    }
    match ask_at(list, buffer, string, n, lookup, place) {
        Asked::Nothing => Ok(0),
        Asked::Instead(glyph) => {
            put(string, 2 * place, glyph);
            Ok(1)
        }
        Asked::Rule(rule) => {
            record_step(
                list,
                buffer,
                string,
                n,
                lookup,
                rule.records,
                place,
                depth - 1,
            )?;
            Ok(rule.input_len)
        }
    }
}

// Runs the records that stand in a row of a lookup's bytes, for a rule that matched at a place.
#[cycle(lookup_step_record_step)]
fn record_step(
    list: &[u8],
    buffer: &[u8],
    string: &mut [u8],
    n: usize,
    owner: usize,
    records: Row,
    place: usize,
    depth: usize,
) -> Result<(), TooDeep>
    requires { Ready list.now buffer.now × Room n string.old × (owner < length list.now / 10) × (records.at < 0x1_0000_0000) × (records.len < 65536) × (place + 65536 * (depth + 1) < 0x1_0000_0000_0000) }
    ensures { Ruled (run_records (apply depth (lookups_of list.now buffer.now)) (entries (source_at list.now buffer.now owner) records.at records.len) (words string.old 0 n) place) n result string.new }
{
    for i in 0..records.len {
        let index = source_word(list, buffer, owner, records.at + 4 * i);
        let lookup = source_word(list, buffer, owner, records.at + 4 * i + 2);
        lookup_step(list, buffer, string, n, lookup, place + index, depth)?;
    }
    Ok(())
}

// How far the next place is: past the input, or one on where nothing matched.
fn onward(took: usize) -> usize
    requires { took ≤ 65536 }
    ensures { (result ≡ onward took) × (0 < result) × (result ≤ 65536) }
{
    if took == 0 {
        return 1;
    }
    took
}

// Applies a listed lookup at every place of a string from left to right.
fn sweep_lookup(
    list: &[u8],
    buffer: &[u8],
    string: &mut [u8],
    n: usize,
    lookup: usize,
) -> Result<(), TooDeep>
    requires { Ready list.now buffer.now × Room n string.old }
    ensures { Ruled (sweep_all (lookups_of list.now buffer.now) lookup (words string.old 0 n)) n result string.new }
{
    let mut place = 0;
    // Each step says how far the next place is.
    while place < n {
        let took = lookup_step(list, buffer, string, n, lookup, place, DEPTH)?;
        place += onward(took);
    }
    Ok(())
}

// Applies the lookups of the list in order.
pub fn run_lookups(list: &[u8], buffer: &[u8], string: &mut [u8], n: usize) -> Result<(), TooDeep>
    requires { Ready list.now buffer.now × Room n string.old }
    ensures { Ruled (run (lookups_of list.now buffer.now) (words string.old 0 n)) n result string.new }
{
    let many = list.len() / 10;
    for lookup in 0..many {
        sweep_lookup(list, buffer, string, n, lookup)?;
    }
    Ok(())
}
