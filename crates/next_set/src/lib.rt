// The next closed set has no code here: its definition and laws stand in specs/.
#![tactic(auto)]
