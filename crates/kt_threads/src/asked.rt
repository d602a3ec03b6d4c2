//! What steps ask of objects.

use kt_base::ProcNo;
use kt_plan::Act;

/// What a step asked of its process's object: the body that it offered, where it was asked for one, and the acts that it did.
#[derive(Clone, Copy)]
pub struct Errand {
    pub offered: Option<i64>,
    pub acts: [Act; 2],
}

/// What a step of a process asked of its object. The code keeps no list of them.
#[derive(Clone, Copy)]
pub struct Entry {
    pub by: ProcNo,
    pub errand: Errand,
}
