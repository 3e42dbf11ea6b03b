// Cases of documents 01 and 02 at the full sizes, layouts, sources and jobs: see specs/. There is no code here.
// A fact about a long list is proved of lists of every length, and what is computed at the limit is a number or a short list.
#![tactic(auto)]
