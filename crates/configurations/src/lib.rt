// A zone's configuration kept as the list of its robots: who can enter, and the list afterwards.
//
//     entering  who can enter, and the list afterwards
#![tactic(auto)]

pub mod entering;
