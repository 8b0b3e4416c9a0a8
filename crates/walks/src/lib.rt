// The walks by hand have no code: they stand in specs/.
#![tactic(auto)]
