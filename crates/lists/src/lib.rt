// Laws on lists, used by every other crate. All of it is in specs/; this file holds no code.
#![tactic(auto)]
