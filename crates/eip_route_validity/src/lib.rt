// What holds of the routes that a file without a fault says, and that their set is valid. No code: laws.
#![tactic(auto)]
