#![tactic(auto)]

// What a journal's bytes say when they are read. What is proved of it is in specs/.
