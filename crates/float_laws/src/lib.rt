#![tactic(auto)]

// Laws about f32 and f64 values alone, proved once for every crate above. There is no code here.
