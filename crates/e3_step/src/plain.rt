//! A site's plain step: the step that an input makes, with every reading of the site's past computed anew as its
//! definition says it. It is slow, and serves to say what a quick step does.
mod anew;
mod grants;
mod packets;
mod reading;
mod steps;

pub use anew::Anew;
pub use packets::{unnumbered, unnumbered_input};
pub use steps::step_of;
