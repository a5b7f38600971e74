// Laws of the system text. There is no code here: see specs/.
#![tactic(auto)]
