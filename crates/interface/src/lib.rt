// What a drawing is sent to: calls, the sinks and screens that take them, the states that a screen saves, and the screen over any store of calls.
#![tactic(auto)]

pub mod call;
pub mod fault;
pub mod issuing;
pub mod region;
pub mod screen;
pub mod sink;
pub mod state;
pub mod store;
pub mod values;
