//! Laws of certificates that are right: their bounds hold, and they have no fault. A law is a
//! function that does nothing: its contract is the law.
ghost use Rattle.std.specs.Prelude.{◌≡◌};
ghost use Rattle.cn_table.specs.TypeTable.{IsTypeTable, TypeTable};
ghost use Rattle.cn_unread_cert.specs.Certificate.{UnreadCertificate};
ghost use Rattle.cn_unread_cert.specs.Right.{IsMerging, IsRight};
ghost use Rattle.cn_unread_check.specs.Bounds.{bounds_of};
ghost use Rattle.cn_unread_check.specs.Faults.{IsFirstFault};
ghost use Rattle.cn_unread_check.specs.declared.fault.UnreadCheckFault.{UnreadCheckFault};
ghost use Rattle.cn_unread_number.specs.Bounds.{HasUnreadNumber};

use cn_unread_number::laws::shown_bounds_hold;

/// The bounds of a certificate that is right are those of the type, without reads.
pub fn accepted_bounds_hold()
    // promise: check-without-reads (HasUnreadNumber)
    ensures { (t : TypeTable) (c : UnreadCertificate) → IsRight t c
        → HasUnreadNumber t (bounds_of c.at_least c.at_most) }
{
    shown_bounds_hold();
}

/// The states of a type merge to one type alone: to that of the classes in the order of their first
/// states.
pub fn states_merge_to_one_type()
    // promise: check-without-reads (IsMerging)
    ensures { (t u v : TypeTable) → IsTypeTable t → IsMerging t u → IsMerging t v → u ≡ v }
{}

/// A certificate with a fault is not right.
pub fn faults_are_wrong()
    // promise: check-without-reads (IsFirstFault)
    ensures { (t : TypeTable) (c : UnreadCertificate) (e : UnreadCheckFault) → IsTypeTable t
        → IsFirstFault t c e → ¬ IsRight t c }
{}
