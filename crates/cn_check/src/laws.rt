//! The laws that a certificate has one verdict, and that an accepted certificate is right.
//!
//! A law is a function that does nothing: its contract is the law.
ghost use Rattle.std.specs.Prelude.{◌≡◌, ◌≤◌, IfSome};
ghost use Rattle.cn_table.specs.TypeTable.{TypeTable};
ghost use Rattle.cn_choice.specs.Canonical.{FitsTable};
ghost use Rattle.cn_choice.specs.Discerning.{IsNumberUpTo};
ghost use Rattle.cn_finding.specs.Evidence.{IsFindingFor};
ghost use Rattle.cn_finding.specs.Finding.{Finding};
ghost use Rattle.cn_finding.specs.declared.limits.TheConstants.{GREATEST_LIMIT, LEAST_LIMIT};
ghost use Rattle.cn_cert.specs.Certificate.{Certificate, certificate_of};
ghost use Rattle.cn_check.specs.Faults.{HasFault, IsFirstFault};
ghost use Rattle.cn_check.specs.Verdict.{IsAccepted};
ghost use Rattle.cn_check.specs.declared.fault.CheckFault.{CheckFault};

use cn_choice::laws;

/// A certificate that is accepted has no fault, and any other has only one first fault.
pub fn one_verdict()
    // promise: one-verdict
    ensures accepted { (t : TypeTable) (c : Certificate) (e : CheckFault) → IsAccepted t c
        → ¬ HasFault t c e }
    // promise: one-verdict
    ensures first { (t : TypeTable) (c : Certificate) (e f : CheckFault) → IsFirstFault t c e
        → IsFirstFault t c f → e ≡ f }
{}

/// A certificate that is accepted has the number of the type up to its limit, and the certificate
/// of each finding is accepted.
pub fn accepted_is_right()
    // promise: accepted-numbers
    ensures number { (t : TypeTable) (c : Certificate) → IsAccepted t c
        → IsNumberUpTo t c.limit c.number }
    // promise: accepted-numbers
    ensures found { (t : TypeTable) (f : Finding) → IsFindingFor t f.limit f
        → LEAST_LIMIT ≤ f.limit → f.limit ≤ GREATEST_LIMIT
        → IsAccepted t (certificate_of t.name f) }
{
    // An entry that refutes a choice shows that the choice is no witness. If none of the choices
    // that count is a witness, no choice is one, for as many processes or for more.
    laws::collision_or_witness();
    laws::canonical_choices_decide();
    laws::live_choices_decide();
    laws::greatest_before_failure::<laws::DiscerningType>();
    laws::monotonicity();
    laws::live_list();
}

/// The witness of a certificate that is accepted is a choice of the table for 2 to
/// [`MOST_PROCESSES`](cn_choice::MOST_PROCESSES) processes, as a plan needs it.
pub fn accepted_witnesses_fit()
    // promise: accepted-witnesses
    ensures { (t : TypeTable) (c : Certificate) → IsAccepted t c → IfSome c.witness (FitsTable t) }
{}
