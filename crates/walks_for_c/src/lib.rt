// The walks of the functions for C have no code: they stand in specs/.
#![tactic(auto)]
