// The plain machine has no code: its definitions and its computed cases stand in specs/.
#![tactic(auto)]
