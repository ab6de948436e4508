// Theorems about the steps of the language; there is no code here.
#![tactic(auto)]
