// The promises of the acts, in specs/ alone: what the definitions of the index, the laws of the tree and those of the search come to.
#![tactic(auto)]
