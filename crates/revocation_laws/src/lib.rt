// Laws of the calls of revocation and of those for notifications: what is promised of them, from their definitions alone. There is nothing
// to run here: the calls are in `revocation_reads`, `revocation_calls` and `notification_calls`.

#![tactic(auto)]
