// The program's output for table files with the same lines. There is no code: what is proved stands in specs/.
#![tactic(auto)]
