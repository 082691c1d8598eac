// The search for all smallest explanations. Its rules and theorems stand in specs/; the machine follows them.
#![tactic(auto)]
