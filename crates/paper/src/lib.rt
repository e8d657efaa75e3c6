// The paper: what every job of the label codec means. There is no code here: specs/ holds one definition
// for each sentence, specs/Cases.antt the cases that were checked by hand, and every other crate cites them.
#![tactic(auto)]
