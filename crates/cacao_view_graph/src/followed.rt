// A run whose records were followed.
use crate::course::Course;
use flow_core::Flow;

/// How a run stands behind its records, and their course.
#[derive(Drop)]
pub(crate) struct Followed {
    pub flow: Flow,
    pub course: Course,
}
