// What holds of the plain machine, with no code: its demands and their theorems stand in specs/.
#![tactic(auto)]
