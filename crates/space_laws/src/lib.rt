// Laws of the calls of a space: what is promised of them, from their definitions alone. There is nothing to run here: the calls are in
// `space_reads` and `space_calls`.

#![tactic(auto)]
