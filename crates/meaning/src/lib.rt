// Document 01 as definitions that run, and its cases as rows. There is no code here: see specs/, and for the rows proofs/Rows.antt.
#![tactic(auto)]
