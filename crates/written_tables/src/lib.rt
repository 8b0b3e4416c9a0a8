// That a table which was written is read back, and that writing settles, has no code: it stands in specs/.
#![tactic(auto)]
