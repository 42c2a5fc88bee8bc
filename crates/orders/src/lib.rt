// A zone's configuration as the list of its robots: definitions and laws.
#![tactic(auto)]
