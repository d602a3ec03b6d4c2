//! The chains of the members of an instance, by what a walk keeps.

ghost use Rattle.std.specs.Prelude.{◌≡◌, ◌++◌, ◌∷◌, [], ℕ, List, IfOk, IfErr};
ghost use Rattle.kt_spacetime.specs.declared.event.Event.{Event};
ghost use Rattle.kt_meaning.specs.Past.{past};
ghost use Rattle.kt_walk.specs.WalkOf.{WalkOf};
ghost use Rattle.kt_meaning.specs.Linking.{least_link, chain_through, chain_of, chained, AreChained};
ghost use Rattle.kt_certify.specs.Stops.{StopsAt};

use crate::fault::Stop;
use kt_base::{InstNo, Kind, Memory, MsgNo, ProcNo};
use kt_spacetime::{Chain, Members};
use kt_walk::Walk;
use std::alloc::Global;

// The least message that links a process, p, with a member that joined before it, q.
fn link(walk: &Walk, inst: InstNo, kind: Kind, p: ProcNo, q: ProcNo) -> Option<MsgNo>
    ensures { (rows : List Event) → WalkOf walk.now rows → result ≡ least_link (past rows) inst kind p q }
{
    let _p = p.get();
    let _q = q.get();
    match kind {
        Kind::Checkpoint => {
            if !walk.may_link(p, q) {
                return None;
            }
            let bound = walk.position(inst, q).unwrap_or(0);
            walk.link(p, q, walk.permanent(p), bound)
        }
        Kind::Rollback => {
            if !walk.may_link(q, p) {
                return None;
            }
            walk.link(q, p, walk.permanent(q), walk.length(p))
        }
    }
}

// The chain of the first of these members that a message links the process with, and the least such message.
fn chain_through(
    alloc: Global,
    walk: &Walk,
    inst: InstNo,
    kind: Kind,
    earlier: &[(ProcNo, Chain)],
    p: ProcNo,
) -> Result<Option<Chain>, Memory>
    ensures { IfOk result (λ chain. (rows : List Event) → WalkOf walk.now rows
        → chain ≡ chain_through (least_link (past rows) inst kind p) earlier.now) }
{
    for (q, chain) in earlier {
        if let Some(msg) = link(walk, inst, kind, p, *q) {
            return Ok(Some(chain.longer(alloc, msg)?));
        }
    }
    Ok(None)
}

// A member's chain, by the members that joined before it.
fn chain_of(
    alloc: Global,
    walk: &Walk,
    inst: InstNo,
    kind: Kind,
    initiator: ProcNo,
    earlier: &[(ProcNo, Chain)],
    p: ProcNo,
) -> Result<Option<Chain>, Memory>
    ensures { IfOk result (λ chain. (rows : List Event) → WalkOf walk.now rows
        → chain ≡ chain_of (past rows) inst kind initiator earlier.now p) }
{
    if p == initiator {
        return Ok(Some(Chain::new(alloc)));
    }
    chain_through(alloc, walk, inst, kind, earlier, p)
}

/// These processes, in the order in which they joined, each with its chain; else the first that has none.
pub(crate) fn chained(
    alloc: Global,
    walk: &Walk,
    inst: InstNo,
    kind: Kind,
    initiator: ProcNo,
    joined: &[ProcNo],
) -> Result<Members, Stop>
    ensures members { IfOk result (λ members. (rows : List Event) → WalkOf walk.now rows
        → members ≡ chained (past rows) inst kind initiator joined.now) }
    ensures all { IfOk result (λ members. (rows : List Event) → WalkOf walk.now rows
        → AreChained (past rows) inst kind initiator joined.now) }
    ensures fault { IfErr result (λ f. (rows : List Event) → WalkOf walk.now rows
        → StopsAt (past rows) inst kind initiator joined.now f) }
{
    let mut members = Members::with_capacity(alloc, joined.len())?;
    for p in joined {
        let Some(chain) = chain_of(alloc, walk, inst, kind, initiator, members.list(), *p)? else {
            return Err(Stop::NoChain(inst, *p));
        };
        members.push(*p, chain)?;
    }
    Ok(members)
}
