// The program's output by written marks, and that it is the program's output. There is no code: what is proved stands in specs/.
#![tactic(auto)]
