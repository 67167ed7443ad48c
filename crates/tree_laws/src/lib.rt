// What inserting into an index and deleting from it mean. All of it is in specs/; this file holds no code.
#![tactic(auto)]
