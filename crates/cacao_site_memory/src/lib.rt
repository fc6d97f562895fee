//! A shelf and a site in memory, which tell everything and fail by a plan: files that are read, a disk with what a crash may
//! leave of it, a link with its weather, the lines said, and a clock.
#![tactic(auto)]

mod file_list;
mod kept_files;
mod link;
pub mod plan;
mod room;
pub mod shelf;
pub mod site;
mod site_calls;
mod site_crash;
mod site_link;
mod site_rack;

pub use plan::{CallList, SitePlan, Weather, WeatherList};
pub use shelf::MemoryShelf;
pub use site::MemorySite;
