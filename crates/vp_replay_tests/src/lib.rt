//! The tests of runs that stop within a step, of the generator, its soak, the logs that schedules leave and the worked schedules, those of
//! docs/examples too, through the program as one call.
#![tactic(auto)]

#[cfg(test)]
mod contents;
#[cfg(test)]
mod decision;
#[cfg(test)]
mod examples;
#[cfg(test)]
mod generated;
#[cfg(test)]
mod images;
#[cfg(test)]
mod logs;
#[cfg(test)]
mod serial;
#[cfg(test)]
mod texts;
#[cfg(test)]
mod transactions;
#[cfg(test)]
mod views;
