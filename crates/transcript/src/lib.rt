// The program's output and its theorems have no code: they stand in specs/.
#![tactic(auto)]
