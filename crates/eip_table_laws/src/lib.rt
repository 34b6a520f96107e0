// What each entry of a journal makes of the tables that stand for it, and what those tables say. There is no code.
#![tactic(auto)]
