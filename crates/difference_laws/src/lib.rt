// Laws on what differs, and what is promised of it: see specs/. There is no code here.
#![tactic(auto)]
