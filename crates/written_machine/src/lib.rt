// The plain machine read by written marks. There is no code: what is proved stands in specs/.
#![tactic(auto)]
