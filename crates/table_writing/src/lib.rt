// What writing a table file answers; which tables are refused, and what is written, stands in specs/.
#![tactic(auto)]
