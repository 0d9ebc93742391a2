#![tactic(auto)]

// Lists and tables of numbers, and their laws.
