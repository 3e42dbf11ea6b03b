// What is promised of the answers that the code gives: see specs/. There is no code here.
#![tactic(auto)]
