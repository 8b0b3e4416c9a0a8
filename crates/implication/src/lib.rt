// Implications in flat slices and closures have no code here: the definitions and laws stand in specs/.
#![tactic(auto)]
