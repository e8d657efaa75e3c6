// Laws of lists, and nothing else: lists of which every place is said, parts of a list, parts joined, a list laid over another.
// There is no code here.
#![tactic(auto)]
