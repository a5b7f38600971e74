// Definitions and laws only: primes, inverses, the field of residues modulo a prime, and lists of numbers as sequences of residues. See specs/.
#![tactic(auto)]
