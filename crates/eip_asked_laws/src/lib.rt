// Whatever an exchange has processed or tested by name is named by a step of the set, so the name is one of the set's own. There is no code.
#![tactic(auto)]
