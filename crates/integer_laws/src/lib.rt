// Whole numbers below zero, made readable for a prover that counts only upwards. There is no code here: specs/ has
// the notions and the rules.
#![tactic(auto)]
