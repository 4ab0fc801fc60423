//! The tests of the parts of a site, of the site and of the world, outside their crates: a crate with tests is proved twice.
#![tactic(auto)]

#[cfg(test)]
mod coordinators;
#[cfg(test)]
mod locks;
#[cfg(test)]
mod participants;
#[cfg(test)]
mod refreshes;
#[cfg(test)]
mod sites;
#[cfg(test)]
mod views;
#[cfg(test)]
mod worlds;
