// What a set of assumptions explains: paper 01, 5. Specs alone; the judge is crate judging.
#![tactic(auto)]
