// What an index means: the tree that its pages hold, and when the index is sound. All of it is in specs/; this file holds no code.
#![tactic(auto)]
