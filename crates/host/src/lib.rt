// What a program in C or Rust calls of the manager and of revocation, and a run of the request stream: by plain names, numbers in, numbers
// out. The contract of each cites the same definition as the call's own.
#![tactic(auto, unfolding(host_replies::specs::Replies::told, host_replies::specs::Replies::area_answer))]

mod manager;
mod revoking;
mod stream;
