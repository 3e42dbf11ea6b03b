// What is proved of cutting twice: see specs/, of which Promises.antt says it all. There is no code here.
#![tactic(auto)]
