#![tactic(auto)]

// What the definitions compute, by hand and from the papers: tables of cases, each one equation. They stand apart, so that no wrong definition is refused by a case alone.
