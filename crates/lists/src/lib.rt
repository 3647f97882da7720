#![tactic(auto)]

// Laws about truth values, numbers and lists that two crates would otherwise both prove: specs/.
