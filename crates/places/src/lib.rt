// The places of a source that offsets lead to, counted in cells of marks: a bit for each place, 32 to a cell.
#![tactic(auto)]

// One offset leads to a place below 65,536: where coverages, class tables and sets start.
pub const PART_MARKS: usize = 65536 / 32;

// Two offsets lead to a place below 131,072: where rules and ligatures start.
pub const MEMBER_MARKS: usize = 131072 / 32;
