//! Where the first certificate of each instance stands.

ghost use Rattle.std.specs.Prelude.{◌≡◌, ◌+◌, Some, List, IfOk, length, slice_get};
ghost use Rattle.kt_spacetime.specs.declared.certificate.Certificate.{Certificate};
ghost use Rattle.kt_checker.specs.Judged.{AreFirsts, IsFirstOfInstance};

use kt_base::{InstNo, Memory};
use kt_spacetime::Certificate;
use std::alloc::Global;

/// How many instances there are at most.
const INSTANCES: usize = 4096;

/// Where the first certificate of each instance stands in a list.
#[derive(Drop)]
pub(crate) struct Firsts {
    // By instance, from 1 on.
    pub(crate) places: Vec<Option<usize>>,
}

impl Firsts {
    /// The places of the first certificates of a list.
    pub(crate) fn of(alloc: Global, certificates: &[Certificate]) -> Result<Firsts, Memory>
        ensures { IfOk result (λ firsts. AreFirsts firsts.places.items certificates.now (length certificates.now)) }
    {
        let mut places = vec![in alloc; None; INSTANCES]?;
        for index in 0..certificates.len() {
            note_first(&mut places, certificates[index].inst, index);
        }
        Ok(Firsts { places })
    }

    /// The place of the first certificate of an instance.
    pub(crate) fn get(&self, inst: InstNo) -> Option<usize>
        ensures { (certificates : List Certificate)
            → AreFirsts self.now.places.items certificates (length certificates)
            → IsFirstOfInstance certificates (length certificates) inst result }
    {
        *self.places.get(inst.get() as usize - 1)?
    }
}

// Notes the place of a certificate of an instance, unless there is an earlier one.
fn note_first(places: &mut [Option<usize>], inst: InstNo, place: usize)
    requires { length places.old ≡ 4096 }
    ensures { (certificates : List Certificate) (c : Certificate) → AreFirsts places.old certificates place
        → slice_get certificates place ≡ Some c → c.inst ≡ inst → AreFirsts places.new certificates (place + 1) }
{
    let index = inst.get() as usize - 1;
    if places[index].is_none() {
        places[index] = Some(place);
    }
}
