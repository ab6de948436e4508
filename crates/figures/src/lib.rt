// Theorems alone: the report's figures 1 and 2, and that the checks of `rules` agree with them. No code.
#![tactic(auto)]
