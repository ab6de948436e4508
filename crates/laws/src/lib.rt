// Laws of the rules' definitions, for the proofs of the code. There is no code here.
#![tactic(auto)]
