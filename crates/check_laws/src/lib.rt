// Laws of the check: no two blocks that pass differ in one byte or in two, so that damage to one or two bytes is refused as 8.
// There is no code here: specs/ and proofs/ hold the laws about the paper's definitions.
#![tactic(auto)]
