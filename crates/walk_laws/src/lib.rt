// The theory of the walk as the paper defines it: what a whole coding gives back, what any first part of it is worth,
// how many bits it can have, how many bits decoding reads, and how many planes any bits leave unfinished. There is no
// code here: specs/ has the laws.
#![tactic(auto)]
