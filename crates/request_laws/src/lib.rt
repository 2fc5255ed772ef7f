// What a run of the request stream means: its world stays sound, no line has 26, and when a record is answered 21. There is nothing to
// run here: the records are in `request`, the run is in `request_run`.

#![tactic(auto)]
