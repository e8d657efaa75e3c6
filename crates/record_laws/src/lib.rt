// Laws of the record: what is written is read back, whole or cut, and nothing is kept of a block that fails.
// There is no code here: specs/ and proofs/ hold the laws about the paper's definitions.
#![tactic(auto)]
