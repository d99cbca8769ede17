// The library for a program in C: plain numbers and byte slices in, the code as the result and the number through a reference.
// include/frame.h declares these entries; a slice is a pointer and then a length there.
#![tactic(auto)]

mod about;
mod records;
mod routing;
mod technician;
mod telling;
