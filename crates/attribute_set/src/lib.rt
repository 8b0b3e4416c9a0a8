// Sets of attributes as words have no code here: the definitions and laws stand in specs/.
#![tactic(auto)]
