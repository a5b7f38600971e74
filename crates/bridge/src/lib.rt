// Laws only: the meaning's notions are the theory's. See specs/.
#![tactic(auto)]
