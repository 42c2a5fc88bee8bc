// A zone's configuration as the list of its robots: who can leave it, and whether it is the goals'.
//
//     leaving   who can leave a zone, by its list
//     goals     a zone's goals, by its list
#![tactic(auto)]

pub mod goals;
pub mod leaving;
