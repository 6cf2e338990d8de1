// Lemmas on IEEE 754 numbers as whole multiples of the smallest one, for the crates above. There is nothing to run here.
#![tactic(auto)]
