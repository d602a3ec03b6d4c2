//! Chains and cuts of a certificate.

ghost use Rattle.std.specs.Prelude.{◌≡◌, ◌↔◌, ℕ, ◌<◌, true, false, Some, List, [], ◌∷◌, map, Contains, slice_get, slice_index, IsTrue, IfSome, IfNone};
ghost use Rattle.kt_base.specs.Sets.{has};
ghost use Rattle.kt_spacetime.specs.declared.event.Event.{Event};
ghost use Rattle.kt_spacetime.specs.declared.deeds.Deed.TheVariants as deed;
ghost use Rattle.kt_meaning.specs.Past.{Past, past};
ghost use Rattle.kt_meaning.specs.Legal.{IsLegal, is_undecided};
ghost use Rattle.kt_meaning.specs.Cuts.{IsConsistent};
ghost use Rattle.kt_meaning.specs.Chains.{LinksRollback};
ghost use Rattle.kt_meaning.specs.Throughout.{HasConsistentDecisions};
ghost use Rattle.kt_rules.specs.Traces.{place_of};
ghost use Rattle.kt_walk.specs.WalkOf.{WalkOf};
ghost use Rattle.kt_spacetime.specs.declared.certificate.Certificate.{Certificate as Certificates};
ghost use Rattle.kt_checker.specs.Followed.{IsPath, IsPathOf, message_of};
ghost use Rattle.kt_meaning.specs.Passing.{IsListOf, HasLists, IsChain, ListsReady, decided_cut, earlier_cut};

use crate::path::Path;
use kt_base::{Kind, MsgNo, ProcNo, ProcSet};
use kt_rules::Cut;
use kt_spacetime::{Certificate, Chain};
use kt_walk::Walk;

/// Whether each member's list is a chain for it.
pub(crate) fn has_chains(walk: &Walk, certificate: &Certificate) -> bool
    ensures lists { (rows : List Event) → WalkOf walk.now rows → IsTrue result → HasLists (past rows) certificate.now }
    ensures exact { (rows : List Event) → WalkOf walk.now rows → IsLegal rows → IsTrue result
        ↔ HasLists (past rows) certificate.now }
{
    let mut path = Path::new();
    for (process, chain) in certificate.members.list() {
        if !is_chain(walk, certificate, &mut path, *process, chain) {
            return false;
        }
    }
    true
}

// Whether a list is a chain for a member: none for the initiator, else messages that lead from the initiator to it. Of
// those that the chain before it begins with too, the processes are known.
fn is_chain(
    walk: &Walk,
    certificate: &Certificate,
    path: &mut Path,
    process: ProcNo,
    chain: &Chain,
) -> bool
    ensures lists { (rows : List Event) → WalkOf walk.now rows → IsPath (past rows) certificate.now path.old
        → IsTrue result
        → IsListOf (past rows) certificate.now.inst certificate.now.kind certificate.now.initiator process chain.now }
    ensures exact { (rows : List Event) → WalkOf walk.now rows → IsPath (past rows) certificate.now path.old
        → IsLegal rows → IsTrue result
        ↔ IsListOf (past rows) certificate.now.inst certificate.now.kind certificate.now.initiator process chain.now }
    ensures path { (rows : List Event) → WalkOf walk.now rows → IsPath (past rows) certificate.now path.old
        → IsTrue result → IsPath (past rows) certificate.now path.new }
{
    if process == certificate.initiator {
        return chain.messages().is_empty();
    }
    let Some((last, earlier)) = chain.messages().split_last() else {
        return false;
    };
    let Some(at) = follow(walk, certificate, path, earlier) else {
        return false;
    };
    if !leads(walk, certificate, at, *last, process) {
        return false;
    }
    path.push(*last, process);
    true
}

// The process that messages lead to from the initiator. The path becomes that of these messages.
fn follow(
    walk: &Walk,
    certificate: &Certificate,
    path: &mut Path,
    messages: &[MsgNo],
) -> Option<ProcNo>
    ensures found { IfSome result (λ at. (rows : List Event) → WalkOf walk.now rows
        → IsPath (past rows) certificate.now path.old
        → IsChain (past rows) certificate.now.inst certificate.now.kind certificate.now.initiator messages.now at) }
    ensures none { IfNone result ((rows : List Event) (at : ℕ) → WalkOf walk.now rows
        → IsPath (past rows) certificate.now path.old → IsLegal rows
        → IsChain (past rows) certificate.now.inst certificate.now.kind certificate.now.initiator messages.now at → ⊥) }
    ensures path { IfSome result (λ at. (rows : List Event) → WalkOf walk.now rows
        → IsPath (past rows) certificate.now path.old → IsPath (past rows) certificate.now path.new) }
    ensures path_of { IfSome result (λ at. IsPathOf path.new messages.now) }
{
    let known = path.front(messages);
    path.truncate(known);
    let mut at = end_of(path, certificate.initiator);
    for index in known..messages.len() {
        let msg = messages[index];
        let Some(next) = next_in_chain(walk, certificate, at, msg) else {
            return None;
        };
        path.push(msg, next);
        at = next;
    }
    Some(at)
}

// The process that a path leads to from the initiator.
fn end_of(path: &Path, initiator: ProcNo) -> ProcNo
    ensures { (s : Past) (certificate : Certificates) → certificate.initiator ≡ initiator → IsPath s certificate path.now
        → IsChain s certificate.inst certificate.kind initiator (map message_of path.now) result }
{
    match path.last() {
        Some(step) => step.to,
        None => initiator,
    }
}

// Where a linking message leads from a process: to its sender in a checkpoint, to its receiver in a rollback. Each
// process is tried, since a walk finds a message by both its ends.
fn next_in_chain(walk: &Walk, certificate: &Certificate, at: ProcNo, msg: MsgNo) -> Option<ProcNo>
    ensures found { IfSome result (λ next. (rows : List Event) → WalkOf walk.now rows
        → IsChain (past rows) certificate.now.inst certificate.now.kind at (msg ∷ []) next) }
    ensures none { IfNone result ((rows : List Event) (next : ℕ) → WalkOf walk.now rows → IsLegal rows
        → IsChain (past rows) certificate.now.inst certificate.now.kind at (msg ∷ []) next → ⊥) }
{
    for number in 0..ProcNo::COUNT {
        let next = ProcNo::nth(number);
        if leads(walk, certificate, at, msg, next) {
            return Some(next);
        }
    }
    None
}

// Whether a linking message leads from a process to the next one: in a checkpoint the next one sent it and the process
// received it within its new position, in a rollback the process sent it and the next one received it.
fn leads(walk: &Walk, certificate: &Certificate, at: ProcNo, msg: MsgNo, next: ProcNo) -> bool
    ensures { (rows : List Event) → WalkOf walk.now rows → IsTrue result
        ↔ IsChain (past rows) certificate.now.inst certificate.now.kind at (msg ∷ []) next }
{
    match certificate.kind {
        Kind::Checkpoint => {
            let Some(received) = received_at(walk, next, at, msg) else {
                return false;
            };
            match walk.position(certificate.inst, at) {
                Some(position) => received <= position,
                None => false,
            }
        }
        Kind::Rollback => received_at(walk, at, next, msg).is_some(),
    }
}

// Where in its history a process received a message that another one sent past its permanent position, counted from 1.
fn received_at(walk: &Walk, from: ProcNo, to: ProcNo, msg: MsgNo) -> Option<usize>
    ensures found { IfSome result (λ place. (rows : List Event) → WalkOf walk.now rows
        → LinksRollback (past rows) to from msg
        × (place_of (deed.Received msg from) ((past rows).live to) ≡ Some place)) }
    ensures none { IfNone result ((rows : List Event) → WalkOf walk.now rows → LinksRollback (past rows) to from msg
        → ⊥) }
{
    let Some((sent, received)) = walk.places(from, to, msg) else {
        return None;
    };
    if sent <= walk.permanent(from) {
        return None;
    }
    Some(received)
}

/// Whether the cut that the decision makes is consistent.
///
/// Where each committed decision before it left a consistent cut, an orphan has its sender or its receiver among the
/// processes of which the decision changes the part, and no other two processes are looked at.
pub(crate) fn leaves_consistent(walk: &Walk, is_consistent: bool, certificate: &Certificate) -> bool
    ensures { (rows : List Event) → WalkOf walk.now rows → (IsTrue is_consistent → HasConsistentDecisions rows)
        → is_undecided (past rows) certificate.now.inst ≡ true → ListsReady (past rows) certificate.now → IsTrue result
        ↔ IsConsistent (past rows) (decided_cut (past rows) certificate.now.inst certificate.now.kind) }
{
    let cut = cut_of(walk, certificate);
    if !is_consistent {
        return walk.orphan(&cut).is_none();
    }
    let changed = changed_in(walk, certificate.kind, &cut);
    walk.orphan_among(changed, &cut).is_none()
}

// The processes of which a decision of this kind, which makes this cut, changes the part.
fn changed_in(walk: &Walk, kind: Kind, cut: &Cut) -> ProcSet
    ensures { (rows : List Event) (p : ℕ) → WalkOf walk.now rows → p < 64 → has result p ≡ false
        → slice_index cut.now p ≡ earlier_cut (past rows) kind p }
{
    let mut changed = ProcSet::empty();
    for number in 0..ProcNo::COUNT {
        let p = ProcNo::nth(number);
        if cut.length(p) != earlier_length(walk, kind, p) {
            changed = changed.with(p);
        }
    }
    changed
}

// A process's length in the cut that such a decision begins with.
fn earlier_length(walk: &Walk, kind: Kind, p: ProcNo) -> usize
    ensures { (rows : List Event) → WalkOf walk.now rows → result ≡ earlier_cut (past rows) kind p }
{
    match kind {
        Kind::Checkpoint => walk.permanent(p),
        Kind::Rollback => walk.length(p),
    }
}

// The cut that the decision makes: of a checkpoint the new positions beside the others' permanent ones, of a rollback
// the permanent positions beside the others' whole histories.
fn cut_of(walk: &Walk, certificate: &Certificate) -> Cut
    ensures { (rows : List Event) (p : ℕ) → WalkOf walk.now rows → ListsReady (past rows) certificate.now → p < 64
        → slice_index result p ≡ decided_cut (past rows) certificate.now.inst certificate.now.kind p }
{
    let mut cut = Cut::new([0; 64]);
    for number in 0..ProcNo::COUNT {
        let p = ProcNo::nth(number);
        cut.set(p, length_in_cut(walk, certificate, p));
    }
    cut
}

// A process's length in that cut.
fn length_in_cut(walk: &Walk, certificate: &Certificate, p: ProcNo) -> usize
    ensures { (rows : List Event) → WalkOf walk.now rows → ListsReady (past rows) certificate.now
        → result ≡ decided_cut (past rows) certificate.now.inst certificate.now.kind p }
{
    match certificate.kind {
        Kind::Checkpoint => match walk.position(certificate.inst, p) {
            Some(position) => position,
            None => walk.permanent(p),
        },
        Kind::Rollback => {
            if is_listed(certificate, p) {
                walk.permanent(p)
            } else {
                walk.length(p)
            }
        }
    }
}

// Whether a certificate lists a process.
fn is_listed(certificate: &Certificate, p: ProcNo) -> bool
    ensures { IsTrue result ↔ Contains (map (λ m. m.0) certificate.now.members) p }
{
    for (process, _chain) in certificate.members.list() {
        if *process == p {
            return true;
        }
    }
    false
}
