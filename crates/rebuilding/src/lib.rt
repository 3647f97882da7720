#![tactic(auto)]

// What replaying a journal leaves. What is proved of it is in specs/.
