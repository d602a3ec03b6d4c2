//! Drawn runs of clusters.

ghost use Rattle.std.specs.Prelude.{◌≤◌, ◌<◌};

use crate::faults::value_of;
use crate::limits::label_of;
use crate::runs::{log_of, parts_of};
use kt_base::{Kind, ProcNo};
use kt_certify::certify_stream;
use kt_checker::check_stream;
use kt_node::{Cluster, ClusterStep};
use kt_spacetime::Verdict;
use std::alloc::Global;
use std::io;

// How many runs are drawn, and how many steps of each.
const RUNS: u32 = 1000;

const STEPS: u32 = 150;

// Numbers in no order that anybody would see.
#[derive(Drop)]
struct Draws(u64);

impl Draws {
    // A number below this one.
    fn below(&mut self, bound: u8) -> u8
        requires { 0 < bound }
        ensures { result < bound }
    {
        let product = self.0.wrapping_mul(6_364_136_223_846_793_005);
        self.0 = product.wrapping_add(1_442_695_040_888_963_407);
        ((self.0 >> 33) % u64::from(bound)) as u8
    }

    // A step of one of so many processes: mostly one takes what comes next of another one.
    fn step(&mut self, count: u8) -> ClusterStep
        requires { (0 < count) × (count ≤ 64) }
    {
        let at = ProcNo::nth(self.below(count));
        let from = ProcNo::nth(self.below(count));
        let able = self.below(8) > 0;
        match self.below(32) {
            0 => {
                let kind = Kind::Checkpoint;
                ClusterStep::Begin { at, kind, able }
            }
            1 => {
                let kind = Kind::Rollback;
                ClusterStep::Begin { at, kind, able }
            }
            2 => ClusterStep::Fail { at },
            3..=12 => {
                let body = i64::from(self.below(100));
                let to = from;
                ClusterStep::Send { at, to, body }
            }
            _ => ClusterStep::Take { at, from, able },
        }
    }
}

// Makes drawn steps of a cluster of so many nodes. What is refused changes nothing.
fn run(cluster: &mut Cluster, alloc: Global, draws: &mut Draws, count: u8)
    requires { (0 < count) × (count ≤ 64) }
{
    for _ in 0..STEPS {
        let step = draws.step(count);
        let _ = cluster.step(alloc, &step);
    }
}

// The log of a drawn run of so many nodes, merged of their parts.
fn drawn_log(alloc: Global, draws: &mut Draws, count: u8) -> io::Result<Vec<u8>>
    requires { (0 < count) × (count ≤ 64) }
{
    let mut cluster = value_of(Cluster::new(alloc, usize::from(count), label_of(0)?))?;
    run(&mut cluster, alloc, draws, count);
    let parts = parts_of(alloc, &cluster, count)?;
    log_of(alloc, parts.as_slice())
}

// How many certificates a log has, where the checker says yes to it with them.
fn count_certificates(alloc: Global, log: &[u8]) -> io::Result<Option<usize>> {
    let certificates = value_of(certify_stream(alloc, log))?;
    match value_of(check_stream(alloc, log, certificates.as_slice()))? {
        Verdict::Yes => Ok(Some(certificates.len())),
        Verdict::No { .. } => Ok(None),
    }
}

/// Draws runs of clusters, merges their parts, and shows how many logs are judged yes, and how many certificates they have.
pub(crate) fn show_drawn<R: Print + AllocGlobal>(rt: &R) -> io::Result<()> {
    let mut draws = Draws(1987);
    let (mut passed, mut certificates): (usize, usize) = (0, 0);
    for run in 0..RUNS {
        let log = drawn_log(rt.alloc(), &mut draws, 2 + (run % 5) as u8)?;
        if let Some(count) = count_certificates(rt.alloc(), log.as_slice())? {
            passed = passed.saturating_add(1);
            certificates = certificates.saturating_add(count);
        }
    }
    println!(rt; "{passed} of {RUNS} drawn runs are judged yes, with {certificates} certificates")
}
