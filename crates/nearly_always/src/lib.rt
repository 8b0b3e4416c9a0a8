// What nearly always comes with a premise (02, request 3/13): the definitions and laws stand in specs/.
#![tactic(auto)]

// The most per cent that can be asked for.
pub const PERCENT: u64 = 99;
