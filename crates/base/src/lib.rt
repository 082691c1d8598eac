// Laws on lists, Booleans and tests that the floors above share. They stand in specs/; there is no code.
#![tactic(auto)]
