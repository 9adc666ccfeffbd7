// The certifying rule of the emergency current is the limit on the rise: laws only. There is no code to run.
#![tactic(auto)]
