// The cases of document 01 as theorems of the definitions. There is no code to run.
#![tactic(auto)]
