// The exact values: definitions and laws. There is no code to run.
#![tactic(auto)]
