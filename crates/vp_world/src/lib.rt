//! The world: all sites with the messages between them, and what each event of a schedule does. Each site has a place (`place`): what its
//! log keeps, and the site itself while it is up.
//!
//! A contract sees what the definitions keep of a world.
#![tactic(auto)]

mod end;
mod happened;
mod lent;
mod place;
mod places;
mod state;
mod stepper;
mod world;

pub use end::WorldEnd;
pub use happened::WorldStep;
pub use lent::LentInput;
pub use stepper::{PlainStepper, Stepper};
pub use world::World;
