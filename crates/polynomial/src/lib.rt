// Definitions and laws only. See specs/.
#![tactic(auto)]
