//! Laws of certificates and their texts.
//!
//! A law is a function that does nothing: its contract is the law.
ghost use Rattle.std.specs.Prelude.{◌≡◌, ◌≤◌, ℕ, Ok, true};
ghost use Rattle.cn_table.specs.TypeTable.{TypeTable, IsTypeTable};
ghost use Rattle.cn_finding.specs.Evidence.{IsFindingFor};
ghost use Rattle.cn_finding.specs.Finding.{Finding};
ghost use Rattle.cn_finding.specs.declared.limits.TheConstants.{GREATEST_LIMIT};
ghost use Rattle.cn_cert.specs.Certificate.{Certificate, certificate_of, is_version};
ghost use Rattle.cn_cert.specs.CertificateText.{certificate_text};
ghost use Rattle.cn_cert.specs.Ranges.{is_in_range};
ghost use Rattle.cn_cert.specs.Reading.{reading};

use cn_choice::laws;

/// The text of a certificate of version 1 or 2 is read back as that certificate, if its parts are
/// in their ranges.
pub fn written_is_read_back()
    // promise: text-of-a-certificate
    ensures { (c : Certificate) → is_version c.version ≡ true → is_in_range c ≡ true
        → reading (certificate_text c) ≡ Ok c }
{}

/// The parts of a finding for a table are in their ranges.
pub fn finding_is_in_range()
    // promise: certificate-of-a-finding
    ensures { (t : TypeTable) (limit : ℕ) (f : Finding) → IsTypeTable t → limit ≤ GREATEST_LIMIT
        → IsFindingFor t limit f → is_in_range (certificate_of t.name f) ≡ true }
{
    // The choices of the search are choices of the table, for few processes.
    laws::live_list();
    laws::short_orders();
    laws::process_of_pair();
}
