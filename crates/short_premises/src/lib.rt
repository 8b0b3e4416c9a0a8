// The premises that are listed have no code here: they stand in specs/.
#![tactic(auto)]
