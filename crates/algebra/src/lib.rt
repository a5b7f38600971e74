// Definitions and laws only: rings, fields, sums and convolutions over an abstract carrier. See specs/.
#![tactic(auto)]
