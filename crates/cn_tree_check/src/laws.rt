//! Laws of certificates of plan trees that are right. A law is a function that does nothing: its
//! contract is the law.
ghost use Rattle.std.specs.Prelude.{◌≡◌, ◌++◌, ◌∷◌, [], None};
ghost use Rattle.cn_table.specs.TypeTable.{IsTypeTable, TypeTable};
ghost use Rattle.cn_trees.specs.Tree.{Teams};
ghost use Rattle.cn_tree_cert.specs.Certificate.{TreeCertificate};
ghost use Rattle.cn_tree_cert.specs.Reading.{AreOf, fault_of};
ghost use Rattle.cn_tree_cert.specs.TreeText.{tree_certificate_text};
ghost use Rattle.cn_tree_check.specs.Faults.{IsFirstFault};
ghost use Rattle.cn_tree_check.specs.Right.{IsRight, IsTreeOf};
ghost use Rattle.cn_tree_check.specs.declared.fault.TreeCheckFault.{TreeCheckFault};

use cn_tree_cert::laws::written_is_read_back;
use cn_trees::laws::steps_of_plan_trees;

/// A certificate tells one tree at most.
pub fn certificates_tell_one_tree()
    // promise: check-of-a-plan-tree (IsTreeOf)
    ensures { (c : TreeCertificate) (s r : Teams) → IsTreeOf c s → IsTreeOf c r → s ≡ r }
{}

/// A certificate with a fault is not right.
pub fn faults_are_wrong()
    // promise: check-of-a-plan-tree (IsFirstFault)
    ensures { (t : TypeTable) (c : TreeCertificate) (e : TreeCheckFault) → IsFirstFault t c e
        → ¬ IsRight t c }
{}

/// A certificate that is right is read back from its text, with a line feed behind it.
pub fn right_certificates_are_read_back()
    // promise: certificate-of-a-plan-tree (AreOf)
    ensures { (t : TypeTable) (c : TreeCertificate) → IsTypeTable t → IsRight t c
        → (fault_of (tree_certificate_text c ++ 10 ∷ []) ≡ None)
        × AreOf (tree_certificate_text c ++ 10 ∷ []) c }
{
    steps_of_plan_trees();
    written_is_read_back();
}
