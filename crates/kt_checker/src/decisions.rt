//! What a log says of each instance: how it began, who joined, how it was decided.

ghost use Rattle.std.specs.Prelude.{◌≡◌, ◌+◌, ◌++◌, ◌∷◌, [], ℕ, Bool, List, Some, length, IfNone, IfSome, IsTrue, OnOk};
ghost use Rattle.std.specs.Option.{option_copied};
ghost use Rattle.kt_spacetime.specs.declared.event.Event.{Event};
ghost use Rattle.kt_spacetime.specs.declared.event.Event.TheVariants as event;
ghost use Rattle.kt_base.specs.declared.words.Cause.{Cause};
ghost use Rattle.kt_meaning.specs.Legal.{IsLegal};
ghost use Rattle.kt_checker.specs.declared.decisions.Decision.{Decision};
ghost use Rattle.kt_checker.specs.Gathered.{Gathered, IsFoundFirst};
ghost use Rattle.kt_spacetime.specs.declared.certificate.Certificate.{Certificate};
ghost use Rattle.kt_checker.specs.Missing.{AreSeenBefore, IsUnseen};
ghost use Rattle.kt_rules.specs.Standing.{at_number};

use kt_base::{InstNo, Kind, Memory, ProcNo, RowNo};
use kt_spacetime::{Event, Why};
use std::alloc::Global;

/// How an instance was decided: by which row, and whether committed.
#[derive(Clone, Copy)]
pub(crate) struct Decision {
    pub(crate) inst: InstNo,
    pub(crate) row: RowNo,
    pub(crate) commit: bool,
    /// What is first wrong with the first certificate of the instance, but for what it says of the decision.
    pub(crate) fault: Option<Why>,
}

/// What a log says of an instance.
#[derive(Drop)]
pub(crate) struct Instance {
    pub(crate) kind: Kind,
    pub(crate) initiator: ProcNo,
    pub(crate) decision: Option<Decision>,
    /// Whether a process was unwilling to join.
    pub(crate) refused: bool,
    /// The members in the order in which they joined.
    pub(crate) members: Vec<ProcNo>,
}

/// The instances of a log, by number.
#[derive(Drop)]
pub(crate) struct Instances {
    alloc: Global,
    list: Vec<Instance>,
}

impl Instances {
    /// No instances.
    pub(crate) fn new(alloc: Global) -> Instances
        ensures { result.list.items ≡ [] }
    {
        Instances {
            alloc,
            list: Vec::new(alloc),
        }
    }

    /// The instance of this number.
    pub(crate) fn get(&self, inst: InstNo) -> Option<&Instance>
        ensures { option_copied result ≡ at_number self.now.list.items inst }
    {
        self.list.get(inst.get() as usize - 1)
    }

    /// The first decided instance that no certificate was seen of.
    pub(crate) fn first_missing(&self, seen: &[bool]) -> Option<Decision>
        requires { length seen.now ≡ length self.now.list.items }
        ensures none { IfNone result (AreSeenBefore self.now.list.items seen.now (length self.now.list.items)) }
        ensures missing { IfSome result (IsUnseen self.now.list.items seen.now) }
    {
        for index in 0..self.list.len() {
            if let Some(decision) = missing_decision(&self.list[index], seen[index]) {
                return Some(decision);
            }
        }
        None
    }

    /// How many instances there are.
    pub(crate) fn len(&self) -> usize
        ensures { result ≡ length self.now.list.items }
    {
        self.list.len()
    }

    /// One more row, of this number, and where it decides an instance what was found of its first certificate.
    #[inline(always)]
    pub(crate) fn add(
        &mut self,
        number: RowNo,
        row: &Event,
        fault: Option<Why>,
    ) -> Result<(), Memory>
        ensures { OnOk result ((certificates : List Certificate) (rows : List Event)
            → Gathered certificates self.old.list.items rows → number ≡ length rows + 1
            → IsLegal (rows ++ row.now ∷ [])
            → ((p k : ℕ) (commit : Bool) → row.now ≡ event.Decided p k commit
            → IsFoundFirst certificates rows k commit fault)
            → Gathered certificates self.new.list.items (rows ++ row.now ∷ [])) }
    {
        match *row {
            Event::Began { p, kind, .. } => {
                self.begin(p, kind)?;
                Ok(())
            }
            Event::Took { p, inst } => {
                join(&mut self.list, p, inst)?;
                Ok(())
            }
            Event::Ready { p, inst } => {
                join(&mut self.list, p, inst)?;
                Ok(())
            }
            Event::Unwilling { inst, .. } => {
                refuse(&mut self.list, inst);
                Ok(())
            }
            Event::Decided { inst, commit, .. } => {
                let decision = Decision {
                    inst,
                    row: number,
                    commit,
                    fault,
                };
                decide(&mut self.list, &decision);
                Ok(())
            }
            Event::Sent { .. } => Ok(()),
            Event::Received { .. } => Ok(()),
            Event::Dropped { .. } => Ok(()),
            Event::Closed { .. } => Ok(()),
            Event::Failed { .. } => Ok(()),
            Event::Refused { .. } => Ok(()),
        }
    }

    fn begin(&mut self, initiator: ProcNo, kind: Kind) -> Result<(), Memory>
        ensures { OnOk result ((certificates : List Certificate) (rows : List Event) (inst : ℕ)
            → Gathered certificates self.old.list.items rows
            → Gathered certificates self.new.list.items (rows ++ event.Began initiator inst kind ∷ [])) }
    {
        self.list.push(Instance {
            kind,
            initiator,
            decision: None,
            refused: false,
            members: Vec::new(self.alloc),
        })?;
        Ok(())
    }
}

// The decision of an instance that no certificate was seen of.
fn missing_decision(instance: &Instance, is_seen: bool) -> Option<Decision>
    ensures none { IfNone result ((d : Decision) → instance.now.decision ≡ Some d → IsTrue is_seen) }
    ensures decided { IfSome result (λ d. instance.now.decision ≡ Some d) }
    ensures unseen { IfSome result (λ d. IsTrue is_seen → ⊥) }
{
    let decision = instance.decision?;
    if is_seen {
        return None;
    }
    Some(decision)
}

fn join(list: &mut [Instance], p: ProcNo, inst: InstNo) -> Result<(), Memory>
    ensures took { OnOk result ((certificates : List Certificate) (rows : List Event)
        → Gathered certificates list.old rows → IsLegal (rows ++ event.Took p inst ∷ [])
        → Gathered certificates list.new (rows ++ event.Took p inst ∷ [])) }
    ensures ready { OnOk result ((certificates : List Certificate) (rows : List Event)
        → Gathered certificates list.old rows → IsLegal (rows ++ event.Ready p inst ∷ [])
        → Gathered certificates list.new (rows ++ event.Ready p inst ∷ [])) }
{
    let index = inst.get() as usize - 1;
    if index < list.len() {
        list[index].members.push(p)?;
    }
    Ok(())
}

fn refuse(list: &mut [Instance], inst: InstNo)
    ensures { (certificates : List Certificate) (rows : List Event) (p : ℕ) (cause : Cause)
        → Gathered certificates list.old rows → IsLegal (rows ++ event.Unwilling p inst cause ∷ [])
        → Gathered certificates list.new (rows ++ event.Unwilling p inst cause ∷ []) }
{
    let index = inst.get() as usize - 1;
    if index < list.len() {
        list[index].refused = true;
    }
}

fn decide(list: &mut [Instance], decision: &Decision)
    ensures { (certificates : List Certificate) (rows : List Event) (p : ℕ) → Gathered certificates list.old rows
        → decision.now.row ≡ length rows + 1
        → IsLegal (rows ++ event.Decided p decision.now.inst decision.now.commit ∷ [])
        → IsFoundFirst certificates rows decision.now.inst decision.now.commit decision.now.fault
        → Gathered certificates list.new (rows ++ event.Decided p decision.now.inst decision.now.commit ∷ []) }
{
    let index = decision.inst.get() as usize - 1;
    if index < list.len() {
        list[index].decision = Some(*decision);
    }
}
