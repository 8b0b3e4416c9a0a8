// The functions for C: the record or the layout, where a call has one, is lent first and the place of the answer last, and each slice is a
// pointer and a count. Functions that look alike are calls of the header, each by its own name.
#![tactic(auto)]

mod refusals;
mod rows;
mod sessions;
mod tables;
