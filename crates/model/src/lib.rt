// What the attained share computes, as functions of whole numbers, and how narrow its pair is. There is no code to run.
#![tactic(auto)]
