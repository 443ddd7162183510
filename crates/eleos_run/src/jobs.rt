// The part of a run that one thread works on.

use crate::tasks::Task;
use eleos_host::Tap;
use eleos_machine::Pass;
use eleos_meaning::NameTable;
use eleos_report::LogLine;
use eleos_ring::Ring;
use eleos_trace::Actor;
use std::collections::VecDeque;

/// An actor of a run that has a pass: a caller, the swapper or the balloon, with its tap, its cells
/// of the ring with its way to the host's workers, which only a caller has, the addresses of its
/// names, the tasks that it still has, and the lines that it wrote. All of its room was taken before
/// it starts.
#[derive(Drop)]
pub(crate) struct Job<P, C> {
    pub actor: Actor,
    pub pass: Pass,
    pub tap: Tap<P>,
    pub ring: Ring,
    pub client: Option<C>,
    pub names: NameTable,
    pub tasks: VecDeque<Task>,
    pub lines: Vec<LogLine>,
}
