// The abstract theory of attribute exploration has no code: its definitions and theorems stand in specs/.
#![tactic(auto)]
