//! Playbooks as a picture, in DOT, the language of Graphviz: a node for each step, an edge for each link, a cluster for each playbook and for
//! the region of each control step; perhaps with what a run marks at the steps. And the picture of the run that an engine's file keeps: its
//! playbooks, each step with how often it was walked, the tasks that stand there or ended failed there, and the issues that were sent from it.
#![tactic(auto)]

pub mod course;
mod cutting;
mod edges;
mod followed;
mod following;
mod homes;
mod labels;
mod laws;
mod lines;
pub mod marks;
pub mod note;
mod noting;
mod pictures;
mod placed;
mod placed_book;
mod placing;
mod quoting;
mod run_laws;
mod run_pictures;
pub mod spot;
mod steps;
mod tally;
mod tracing;
mod trees;
pub mod way;

pub use laws::picture_law;
pub use marks::Marks;
pub use note::Note;
pub use pictures::{marked_picture, picture};
pub use run_laws::run_picture_law;
pub use run_pictures::run_picture;
pub use spot::Spot;
