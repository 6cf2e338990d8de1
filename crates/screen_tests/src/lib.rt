// What sinks, screens and page targets do at their limits: run, and proved to be safe.
#![tactic(auto)]

#[cfg(test)]
mod filled;
#[cfg(test)]
mod screens;
#[cfg(test)]
mod states;
#[cfg(test)]
mod targets;
