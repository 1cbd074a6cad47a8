//! Laws of certificates that are right: what they tell of the number of a type, and that they have no
//! fault. A law is a function that does nothing: its contract is the law.
ghost use Rattle.std.specs.Prelude.{◌≡◌, ◌≤◌, ℕ, Some, None};
ghost use Rattle.cn_table.specs.TypeTable.{TypeTable};
ghost use Rattle.cn_stocks.specs.Lasting.{IsAlwaysDiscerning};
ghost use Rattle.cn_stocks.specs.Numbers.{IsNumber};
ghost use Rattle.cn_stock_cert.specs.Certificate.{StockCertificate};
ghost use Rattle.cn_stock_cert.specs.Right.{IsRight};
ghost use Rattle.cn_stock_check.specs.Faults.{HasFault};
ghost use Rattle.cn_stock_check.specs.declared.fault.StockCheckFault.{StockCheckFault};

use cn_stock_cert::laws::{bounds_tell_numbers, right_bounds_hold};

/// What a certificate that is right tells of the number of its type:
///
/// - `number`: two equal bounds from 2 on are the number;
/// - `no_number`: with the upper bound 1 there is none;
/// - `always`: with no lower bound the type is n-discerning for every n.
pub fn right_certificates_tell_numbers()
    // promise: check-by-stocks (IsNumber)
    ensures number { (t : TypeTable) (c : StockCertificate) (n : ℕ) → IsRight t c → 2 ≤ n
        → c.at_least ≡ Some n → c.at_most ≡ Some n → IsNumber t (Some n) }
    // promise: check-by-stocks (IsNumber)
    ensures no_number { (t : TypeTable) (c : StockCertificate) → IsRight t c
        → c.at_most ≡ Some 1 → IsNumber t None }
    // promise: check-by-stocks (IsAlwaysDiscerning)
    ensures always { (t : TypeTable) (c : StockCertificate) → IsRight t c
        → c.at_least ≡ None → IsAlwaysDiscerning t }
{
    right_bounds_hold();
    bounds_tell_numbers();
}

/// A certificate with a fault is not right.
pub fn faults_are_wrong()
    // promise: check-by-stocks (HasFault)
    ensures { (t : TypeTable) (c : StockCertificate) (e : StockCheckFault) → HasFault t c e
        → ¬ IsRight t c }
{}
