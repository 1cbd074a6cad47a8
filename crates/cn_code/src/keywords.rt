//! The keywords of C and of C++, which are no prefix of names.
ghost use Rattle.std.specs.Prelude.{◌≡◌};
ghost use Rattle.cn_code.specs.Keywords.{is_keyword, is_keyword_through_default};
ghost use Rattle.cn_code.specs.Keywords.{is_keyword_through_protected};
ghost use Rattle.cn_code.specs.Keywords.{is_keyword_through_thread_local, is_keyword_through_void};
ghost use Rattle.cn_code.specs.Keywords.{is_keyword_to_alignas, is_keyword_to_auto};
ghost use Rattle.cn_code.specs.Keywords.{is_keyword_to_catch, is_keyword_to_co_await};
ghost use Rattle.cn_code.specs.Keywords.{is_keyword_to_const_cast, is_keyword_to_decimal128};
ghost use Rattle.cn_code.specs.Keywords.{is_keyword_to_default, is_keyword_to_enum};
ghost use Rattle.cn_code.specs.Keywords.{is_keyword_to_for, is_keyword_to_long};
ghost use Rattle.cn_code.specs.Keywords.{is_keyword_to_not_eq, is_keyword_to_protected};
ghost use Rattle.cn_code.specs.Keywords.{is_keyword_to_return, is_keyword_to_static_assert};
ghost use Rattle.cn_code.specs.Keywords.{is_keyword_to_static_cast, is_keyword_to_thread_local};
ghost use Rattle.cn_code.specs.Keywords.{is_keyword_to_throw, is_keyword_to_typeof};
ghost use Rattle.cn_code.specs.Keywords.{is_keyword_to_void};

fn is_keyword_to_auto(text: &str) -> bool
    ensures { result ≡ is_keyword_to_auto text.now }
{
    text == "alignas"
        || text == "alignof"
        || text == "and"
        || text == "and_eq"
        || text == "asm"
        || text == "auto"
}

fn is_keyword_to_catch(text: &str) -> bool
    ensures { result ≡ is_keyword_to_catch text.now }
{
    text == "bitand"
        || text == "bitor"
        || text == "bool"
        || text == "break"
        || text == "case"
        || text == "catch"
}

fn is_keyword_to_co_await(text: &str) -> bool
    ensures { result ≡ is_keyword_to_co_await text.now }
{
    text == "char"
        || text == "char16_t"
        || text == "char32_t"
        || text == "char8_t"
        || text == "class"
        || text == "co_await"
}

fn is_keyword_to_const_cast(text: &str) -> bool
    ensures { result ≡ is_keyword_to_const_cast text.now }
{
    text == "co_return"
        || text == "co_yield"
        || text == "compl"
        || text == "concept"
        || text == "const"
        || text == "const_cast"
}

fn is_keyword_to_default(text: &str) -> bool
    ensures { result ≡ is_keyword_to_default text.now }
{
    text == "consteval"
        || text == "constexpr"
        || text == "constinit"
        || text == "continue"
        || text == "decltype"
        || text == "default"
}

fn is_keyword_to_enum(text: &str) -> bool
    ensures { result ≡ is_keyword_to_enum text.now }
{
    text == "delete"
        || text == "do"
        || text == "double"
        || text == "dynamic_cast"
        || text == "else"
        || text == "enum"
}

fn is_keyword_to_for(text: &str) -> bool
    ensures { result ≡ is_keyword_to_for text.now }
{
    text == "explicit"
        || text == "export"
        || text == "extern"
        || text == "false"
        || text == "float"
        || text == "for"
}

fn is_keyword_to_long(text: &str) -> bool
    ensures { result ≡ is_keyword_to_long text.now }
{
    text == "friend"
        || text == "goto"
        || text == "if"
        || text == "inline"
        || text == "int"
        || text == "long"
}

fn is_keyword_to_not_eq(text: &str) -> bool
    ensures { result ≡ is_keyword_to_not_eq text.now }
{
    text == "mutable"
        || text == "namespace"
        || text == "new"
        || text == "noexcept"
        || text == "not"
        || text == "not_eq"
}

fn is_keyword_to_protected(text: &str) -> bool
    ensures { result ≡ is_keyword_to_protected text.now }
{
    text == "nullptr"
        || text == "operator"
        || text == "or"
        || text == "or_eq"
        || text == "private"
        || text == "protected"
}

fn is_keyword_to_return(text: &str) -> bool
    ensures { result ≡ is_keyword_to_return text.now }
{
    text == "public"
        || text == "register"
        || text == "reinterpret_cast"
        || text == "requires"
        || text == "restrict"
        || text == "return"
}

fn is_keyword_to_static_cast(text: &str) -> bool
    ensures { result ≡ is_keyword_to_static_cast text.now }
{
    text == "short"
        || text == "signed"
        || text == "sizeof"
        || text == "static"
        || text == "static_assert"
        || text == "static_cast"
}

fn is_keyword_to_throw(text: &str) -> bool
    ensures { result ≡ is_keyword_to_throw text.now }
{
    text == "struct"
        || text == "switch"
        || text == "template"
        || text == "this"
        || text == "thread_local"
        || text == "throw"
}

fn is_keyword_to_typeof(text: &str) -> bool
    ensures { result ≡ is_keyword_to_typeof text.now }
{
    text == "true"
        || text == "try"
        || text == "typedef"
        || text == "typeid"
        || text == "typename"
        || text == "typeof"
}

fn is_keyword_to_void(text: &str) -> bool
    ensures { result ≡ is_keyword_to_void text.now }
{
    text == "typeof_unqual"
        || text == "union"
        || text == "unsigned"
        || text == "using"
        || text == "virtual"
        || text == "void"
}

fn is_keyword_to_alignas(text: &str) -> bool
    ensures { result ≡ is_keyword_to_alignas text.now }
{
    text == "volatile"
        || text == "wchar_t"
        || text == "while"
        || text == "xor"
        || text == "xor_eq"
        || text == "_Alignas"
}

fn is_keyword_to_decimal128(text: &str) -> bool
    ensures { result ≡ is_keyword_to_decimal128 text.now }
{
    text == "_Alignof"
        || text == "_Atomic"
        || text == "_BitInt"
        || text == "_Bool"
        || text == "_Complex"
        || text == "_Decimal128"
}

fn is_keyword_to_static_assert(text: &str) -> bool
    ensures { result ≡ is_keyword_to_static_assert text.now }
{
    text == "_Decimal32"
        || text == "_Decimal64"
        || text == "_Generic"
        || text == "_Imaginary"
        || text == "_Noreturn"
        || text == "_Static_assert"
}

fn is_keyword_to_thread_local(text: &str) -> bool
    ensures { result ≡ is_keyword_to_thread_local text.now }
{
    text == "_Thread_local"
}

fn is_keyword_through_default(text: &str) -> bool
    ensures { result ≡ is_keyword_through_default text.now }
{
    is_keyword_to_auto(text)
        || is_keyword_to_catch(text)
        || is_keyword_to_co_await(text)
        || is_keyword_to_const_cast(text)
        || is_keyword_to_default(text)
}

fn is_keyword_through_protected(text: &str) -> bool
    ensures { result ≡ is_keyword_through_protected text.now }
{
    is_keyword_to_enum(text)
        || is_keyword_to_for(text)
        || is_keyword_to_long(text)
        || is_keyword_to_not_eq(text)
        || is_keyword_to_protected(text)
}

fn is_keyword_through_void(text: &str) -> bool
    ensures { result ≡ is_keyword_through_void text.now }
{
    is_keyword_to_return(text)
        || is_keyword_to_static_cast(text)
        || is_keyword_to_throw(text)
        || is_keyword_to_typeof(text)
        || is_keyword_to_void(text)
}

fn is_keyword_through_thread_local(text: &str) -> bool
    ensures { result ≡ is_keyword_through_thread_local text.now }
{
    is_keyword_to_alignas(text)
        || is_keyword_to_decimal128(text)
        || is_keyword_to_static_assert(text)
        || is_keyword_to_thread_local(text)
}

/// Whether a text is a keyword of C or of C++.
pub(crate) fn is_keyword(text: &str) -> bool
    ensures { result ≡ is_keyword text.now }
{
    is_keyword_through_default(text)
        || is_keyword_through_protected(text)
        || is_keyword_through_void(text)
        || is_keyword_through_thread_local(text)
}
