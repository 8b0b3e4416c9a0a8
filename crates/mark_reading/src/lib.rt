// What reading the marks of a table file answers and writes has no code: it stands in specs/.
#![tactic(auto)]
