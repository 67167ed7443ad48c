// The theory of a best-first search of leaves, in specs/ alone, stated over any kind of row and of leaf.
#![tactic(auto)]
