//! A site: what each input does to it.
//!
//! Each row of the definitions is one function, with one equation as its contract: a method of `Stepped`, which is the site with the
//! effects of its step so far, or a function on it. What a row does to a part of the site is a method of that part, in the crates below.
#![tactic(auto)]

mod calls;
mod fault;
mod messages;
mod parts;
mod refresh;
mod site;
mod stepped;
mod tick;
mod views;

pub use fault::StartFault;
pub use site::Site;
