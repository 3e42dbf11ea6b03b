// Laws on the replay of label runs: the places that it reaches, its turns, its tallies, and the bound on what it takes. See specs/. There is no code here.
#![tactic(auto)]
