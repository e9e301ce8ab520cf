use crate::LineReply;
use grove_core::Job;

/// How far a round has come by what its caller does alone, or what threads do only to plan and to weigh.
#[derive(Drop)]
pub enum Begun {
    /// Its lines are answered.
    Answered(Vec<LineReply>),
    /// These jobs are left to do, so many of them each line's.
    Jobs(Vec<Job>, Vec<usize>),
}
