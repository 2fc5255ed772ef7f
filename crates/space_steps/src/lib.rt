// The steps on a space, as `steps` defines them: what is lent to a space's own functions, and the holders that are counted with it.
#![tactic(auto)]

pub mod spaces;
