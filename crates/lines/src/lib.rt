#![tactic(auto)]

// A part of the program `answer`, kept apart so that it is proved while the questions are: the head of a line and its parts as the
// questions take them, what is wrong with a line, and what is written for it.
pub mod faults;
pub mod heads;
pub mod parts;
pub mod print;
