// The kernel's rules: what is known of one processor, which event may come next, and on what ground another is denied.
#![tactic(auto)]

mod rules;
pub mod state;
