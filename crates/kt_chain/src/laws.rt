//! Laws of certificates and their texts; there is nothing to run.

ghost use Rattle.std.specs.Prelude.{◌≡◌, ℕ, List, length, All};
ghost use Rattle.kt_spacetime.specs.declared.certificate.Certificate.{Certificate as claims};
ghost use Rattle.kt_chain.specs.declared.fault.CertTextFault.{CertTextFault as text_faults};
ghost use Rattle.kt_chain.specs.Spelling.{IsCertificateWithin, records_of};
ghost use Rattle.kt_chain.specs.Texts.{IsCertText, IsFirstCertificateFault, IsOfCertificates};

/// Certificates are spelled by records of five fields, and these records spell those certificates alone.
pub fn one_spelling()
    ensures fields { (certificates : List claims) → All (λ fields. length fields ≡ 5) (records_of certificates) }
    ensures alone { (certificates others : List claims) → All IsCertificateWithin certificates → All IsCertificateWithin others
        → records_of certificates ≡ records_of others → certificates ≡ others }
{}

/// A text says one list of certificates at most, or has one first fault of its own; it never has both.
pub fn faults_are_real()
    ensures one_list { (text : List (List (List ℕ))) (certificates others : List claims)
        → IsCertText text certificates → IsCertText text others → certificates ≡ others }
    ensures no_list { (text : List (List (List ℕ))) (certificates : List claims) (fault : text_faults)
        → IsOfCertificates fault → IsFirstCertificateFault text fault → IsCertText text certificates → ⊥ }
    ensures one_fault { (text : List (List (List ℕ))) (fault other : text_faults) → IsOfCertificates fault → IsOfCertificates other
        → IsFirstCertificateFault text fault → IsFirstCertificateFault text other → fault ≡ other }
{}
