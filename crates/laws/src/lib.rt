// Laws of the meaning's definitions, which the proofs of the code cite. There is no code here: see specs/.
#![tactic(auto)]
