// What a call is marked with: the kind of its source, the form of its glyph map, 4 for pairs and 6 for runs, and the layout that is asked for, 0 for the plain one and 1 for the packed one.
#![tactic(auto)]

#[derive(Clone, Copy)]
pub struct Marks {
    pub kind: usize,
    pub form: usize,
    pub layout: usize,
}
