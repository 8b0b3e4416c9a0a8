// Objects with unknown marks and what they refute have no code here: the definitions and laws stand in specs/.
#![tactic(auto)]
