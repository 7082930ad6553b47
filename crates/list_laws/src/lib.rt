#![tactic(auto)]

// Laws about lists alone: tests computed over a whole table, arrays made by `from_fn`, folds, and buffers that a loop fills
// or changes. There is no code here.
