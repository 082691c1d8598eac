// The place of a refusal in words: paper 02, A2. Specs alone; the reader is crate book.
#![tactic(auto)]
