//! Laws of certificates of plan trees, and of their texts.
//!
//! A law is a function that does nothing: its contract is the law.
ghost use Rattle.std.specs.Prelude.{◌≡◌, ◌++◌, ◌∷◌, [], None, true};
ghost use Rattle.cn_tree_cert.specs.Certificate.{TreeCertificate};
ghost use Rattle.cn_tree_cert.specs.Kinds.{is_in_range};
ghost use Rattle.cn_tree_cert.specs.Reading.{AreOf, fault_of};
ghost use Rattle.cn_tree_cert.specs.TreeText.{tree_certificate_data, tree_certificate_text};

/// The text of a certificate is read back as that certificate, if its parts are in their ranges:
///
/// - `read`: the text has no fault, and spells the certificate;
/// - `line`: so it is with a line feed behind the text;
/// - `one`: bytes spell at most one certificate.
pub fn written_is_read_back()
    // promise: text-of-a-tree-certificate (AreOf)
    ensures read { (c : TreeCertificate) → is_in_range (tree_certificate_data c) ≡ true
        → (fault_of (tree_certificate_text c) ≡ None) × AreOf (tree_certificate_text c) c }
    // promise: text-of-a-tree-certificate (AreOf)
    ensures line { (c : TreeCertificate) → is_in_range (tree_certificate_data c) ≡ true
        → (fault_of (tree_certificate_text c ++ 10 ∷ []) ≡ None)
        × AreOf (tree_certificate_text c ++ 10 ∷ []) c }
    // promise: text-of-a-tree-certificate (AreOf)
    ensures one { (bytes : _) (c d : TreeCertificate) → AreOf bytes c → AreOf bytes d → c ≡ d }
{}
