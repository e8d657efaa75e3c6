// The theory of a square in Z order, over the rule of its lines: what L levels undo, how far errors spread, how large numbers
// grow; and what follows for a picture by the 5/3 rule.
// There is no code here.
#![tactic(auto)]
