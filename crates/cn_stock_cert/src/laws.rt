//! Laws of certificates by stocks, of their evidence and of their texts.
//!
//! A law is a function that does nothing: its contract is the law.
ghost use Rattle.std.specs.Prelude.{◌≡◌, ◌≤◌, ℕ, ◌++◌, ◌∷◌, [], Option, Some, None, true};
ghost use Rattle.cn_table.specs.TypeTable.{TypeTable};
ghost use Rattle.cn_choice.specs.Discerning.{IsNumberUpTo};
ghost use Rattle.cn_stocks.specs.Lasting.{Lasts};
ghost use Rattle.cn_stocks.specs.Numbers.{IsNumber};
ghost use Rattle.cn_stock_cert.specs.Certificate.{StockCertificate};
ghost use Rattle.cn_stock_cert.specs.Kinds.{is_in_range};
ghost use Rattle.cn_stock_cert.specs.LastingSets.{AreLastingSets, LastingSets};
ghost use Rattle.cn_stock_cert.specs.Reading.{AreOf, fault_of};
ghost use Rattle.cn_stock_cert.specs.Right.{AreBounds, IsRight};
ghost use Rattle.cn_stock_cert.specs.StockText.{stock_data, stock_text};

/// The text of a certificate is read back as that certificate, if its parts are in their ranges:
///
/// - `read`: the text has no fault, and spells the certificate;
/// - `line`: so it is with a line feed behind the text;
/// - `one`: the text spells no other certificate.
pub fn written_is_read_back()
    // promise: text-by-stocks (AreOf)
    ensures read { (c : StockCertificate) → is_in_range (stock_data c) ≡ true
        → (fault_of (stock_text c) ≡ None) × AreOf (stock_text c) c }
    // promise: text-by-stocks (AreOf)
    ensures line { (c : StockCertificate) → is_in_range (stock_data c) ≡ true
        → (fault_of (stock_text c ++ 10 ∷ []) ≡ None)
        × AreOf (stock_text c ++ 10 ∷ []) c }
    // promise: text-by-stocks (AreOf)
    ensures one { (c d : StockCertificate) → is_in_range (stock_data c) ≡ true
        → AreOf (stock_text c) d → c ≡ d }
{}

/// The bounds of a certificate that is right are those of the type.
pub fn right_bounds_hold()
    // promise: certificate-by-stocks (IsRight, AreBounds)
    ensures { (t : TypeTable) (c : StockCertificate) → IsRight t c
        → AreBounds t c.at_least c.at_most }
{}

/// Operations with lasting sets last.
pub fn lasting_sets_show()
    // promise: certificate-by-stocks (AreLastingSets, Lasts)
    ensures { (t : TypeTable) (s : LastingSets) → AreLastingSets t s
        → Lasts t s.start s.many s.single }
{}

/// What bounds tell of the number of a type:
///
/// - `number`, `no_number`: two equal bounds are the number, and there is none if they are 1;
/// - `up_to`, `none_up_to`: so they are up to each limit from there on;
/// - `at_limit`: a lower bound is the number up to this limit.
pub fn bounds_tell_numbers()
    // promise: certificate-by-stocks (IsNumber)
    ensures number { (t : TypeTable) (n : ℕ) → 2 ≤ n → AreBounds t (Some n) (Some n)
        → IsNumber t (Some n) }
    // promise: certificate-by-stocks (IsNumber)
    ensures no_number { (t : TypeTable) (at_least : Option ℕ) → AreBounds t at_least (Some 1)
        → IsNumber t None }
    // promise: certificate-by-stocks (IsNumberUpTo)
    ensures up_to { (t : TypeTable) (n limit : ℕ) → 2 ≤ n → n ≤ limit
        → AreBounds t (Some n) (Some n) → IsNumberUpTo t limit (Some n) }
    // promise: certificate-by-stocks (IsNumberUpTo)
    ensures none_up_to { (t : TypeTable) (limit : ℕ) (at_least : Option ℕ)
        → AreBounds t at_least (Some 1) → IsNumberUpTo t limit None }
    // promise: certificate-by-stocks (IsNumberUpTo)
    ensures at_limit { (t : TypeTable) (limit : ℕ) (at_most : Option ℕ) → 2 ≤ limit
        → AreBounds t (Some limit) at_most → IsNumberUpTo t limit (Some limit) }
{}
