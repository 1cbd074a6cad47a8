//! Laws of certificates of numbers without reads, and of their texts.
//!
//! A law is a function that does nothing: its contract is the law.
ghost use Rattle.std.specs.Prelude.{◌≡◌, ◌++◌, ◌∷◌, [], None, true};
ghost use Rattle.cn_unread_cert.specs.Certificate.{UnreadCertificate};
ghost use Rattle.cn_unread_cert.specs.Kinds.{is_in_range};
ghost use Rattle.cn_unread_cert.specs.Reading.{AreOf, fault_of};
ghost use Rattle.cn_unread_cert.specs.UnreadText.{unread_data, unread_text};

/// The text of a certificate is read back as that certificate, if its parts are in their ranges:
///
/// - `read`: the text has no fault, and spells the certificate;
/// - `line`: so it is with a line feed behind the text;
/// - `one`: each certificate that the text spells has this text.
pub fn written_is_read_back()
    // promise: text-without-reads (AreOf)
    ensures read { (c : UnreadCertificate) → is_in_range (unread_data c) ≡ true
        → (fault_of (unread_text c) ≡ None) × AreOf (unread_text c) c }
    // promise: text-without-reads (AreOf)
    ensures line { (c : UnreadCertificate) → is_in_range (unread_data c) ≡ true
        → (fault_of (unread_text c ++ 10 ∷ []) ≡ None) × AreOf (unread_text c ++ 10 ∷ []) c }
    // promise: text-without-reads (unread_text)
    ensures one { (c d : UnreadCertificate) → is_in_range (unread_data c) ≡ true
        → AreOf (unread_text c) d → unread_text d ≡ unread_text c }
{}
