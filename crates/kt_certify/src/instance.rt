//! What a pass keeps of an instance.

ghost use Rattle.std.specs.Prelude.{◌≡◌, ℕ, true, List, IfOk, IfErr, OnOk};
ghost use Rattle.kt_spacetime.specs.declared.event.Event.{Event};
ghost use Rattle.kt_meaning.specs.Past.{past};
ghost use Rattle.kt_walk.specs.WalkOf.{WalkOf};
ghost use Rattle.kt_meaning.specs.Certificates.{certified};
ghost use Rattle.kt_certify.specs.Instances.{new_instance, joined_by, decided_as};
ghost use Rattle.kt_certify.specs.Stops.{HasChains, StopsBy};

use crate::chains::chained;
use crate::fault::Stop;
use kt_base::{InstNo, Kind, Memory, ProcNo};
use kt_spacetime::{Certificate, Members};
use kt_walk::Walk;
use std::alloc::Global;
use std::marker::Model;

/// How an instance began, who has joined so far, and its certificate once it is decided.
#[derive(Drop)]
pub(crate) struct Instance {
    initiator: ProcNo,
    kind: Kind,
    joined: Vec<ProcNo>,
    certificate: Option<Certificate>,
}

impl Model for Instance {
    ghost use Rattle.kt_certify.specs.Instances.{InstanceParts};

    ghost Value = { InstanceParts };

    ghost view = { λ v. record { beginning = record { initiator = v.initiator; kind = v.kind }; joined = v.joined.items; certificate = v.certificate } };
}

impl Instance {
    /// An instance that begins.
    pub(crate) fn new(alloc: Global, initiator: ProcNo, kind: Kind) -> Instance
        ensures { result ≡ new_instance initiator kind }
    {
        Instance {
            initiator,
            kind,
            joined: Vec::new(alloc),
            certificate: None,
        }
    }

    /// A process joins it.
    pub(crate) fn join(&mut self, p: ProcNo) -> Result<(), Memory>
        ensures { OnOk result (self.new ≡ joined_by p self.old) }
    {
        self.joined.push(p)?;
        Ok(())
    }

    // Its certificate, where the next row decides it; where it is aborted, nothing is asked of the walk.
    fn certified(
        &self,
        alloc: Global,
        walk: &Walk,
        inst: InstNo,
        commit: bool,
    ) -> Result<Certificate, Stop>
        ensures certificate { IfOk result (λ c. (rows : List Event) → (commit ≡ true → WalkOf walk.now rows)
            → c ≡ certified (past rows) self.now.joined inst commit self.now.beginning) }
        ensures chained { IfOk result (λ c. (rows : List Event) → WalkOf walk.now rows → commit ≡ true
            → HasChains (past rows) inst self.now) }
        ensures fault { IfErr result (λ f. (rows : List Event) → WalkOf walk.now rows
            → StopsBy commit (past rows) inst self.now f) }
    {
        let members = if commit {
            chained(
                alloc,
                walk,
                inst,
                self.kind,
                self.initiator,
                self.joined.as_slice(),
            )?
        } else {
            Members::new(alloc)
        };
        Ok(Certificate {
            inst,
            kind: self.kind,
            initiator: self.initiator,
            commit,
            members,
        })
    }

    /// The next row decides it. Where it is aborted, nothing is asked of the walk.
    pub(crate) fn decide(
        &mut self,
        alloc: Global,
        walk: &Walk,
        inst: InstNo,
        commit: bool,
    ) -> Result<(), Stop>
        ensures decided { OnOk result ((rows : List Event) → (commit ≡ true → WalkOf walk.now rows)
            → self.new ≡ decided_as (past rows) inst commit self.old) }
        ensures chained { OnOk result ((rows : List Event) → WalkOf walk.now rows → commit ≡ true
            → HasChains (past rows) inst self.old) }
        ensures fault { IfErr result (λ f. (rows : List Event) → WalkOf walk.now rows
            → StopsBy commit (past rows) inst self.old f) }
    {
        let certificate = self.certified(alloc, walk, inst, commit)?;
        self.certificate = Some(certificate);
        Ok(())
    }

    /// Gives its certificate away.
    pub(crate) fn give(&mut self) -> Option<Certificate>
        ensures { result ≡ self.old.certificate }
    {
        self.certificate.take()
    }
}
