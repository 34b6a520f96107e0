// The plan of a route set, which its journals are read by: definitions and their laws, no code.
#![tactic(auto)]
