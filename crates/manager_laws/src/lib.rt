// Laws of the calls of the manager: what is promised of them, from their definitions alone. There is nothing to run here: the calls are in
// `manager_calls` and `delegation_calls`.

#![tactic(auto)]
