// Demand 3 alone, for programs that keep the promises of the three public questions. There is no code here.
#![tactic(auto)]
