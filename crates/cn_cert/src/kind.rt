//! Kinds of values, read from their tokens.
ghost use Rattle.std.specs.Prelude.{◌≡◌, ◌∷◌, IfOk, IfErr, Some};
ghost use Rattle.json.specs.Reads.{token_of};
ghost use Rattle.cn_cert.specs.Reads.{Refuses};
ghost use Rattle.cn_cert.specs.Tokens.{data_at, with_value};
ghost use Rattle.cn_cert.specs.Values.{nullable};

use crate::fault::CertFault;
use crate::number;
use crate::skip::{first, rest_of};
use json::{Reader, Token};
use std::alloc::Global;

/// A kind of value in a certificate: numbers, choices and collisions.
pub(crate) trait Kind: Sized + Drop {
    ghost use Rattle.std.specs.Prelude.{◌≡◌, ◌∷◌, Option, IfOk, IfErr, Some};
    ghost use Rattle.json.specs.Reads.{token_of};
    ghost use Rattle.serde_json.specs.Data.{Data};
    ghost use Rattle.cn_cert.specs.Reads.{Refuses};
    ghost use Rattle.cn_cert.specs.Tokens.{data_at, with_value};

    ghost kind: { Data → Option Self };

    /// Reads the value that begins with this token, which was taken; none if it is of another kind.
    fn of(
        alloc: Global,
        reader: &mut Reader<'_>,
        depth: usize,
        token: Token<'_>,
    ) -> Result<Option<Self>, CertFault>
        ensures ok { IfOk result (λ o. with_value kind
            (data_at depth (token_of token.entry ∷ reader.old)) ≡ Some (o, reader.new)) }
        ensures err { IfErr result (λ e. Refuses e
            (with_value kind (data_at depth (token_of token.entry ∷ reader.old)))) };
}

impl Kind for u64 {
    ghost use Rattle.cn_cert.specs.Values.{natural_of};

    ghost kind = { natural_of };

    fn of(
        _alloc: Global,
        reader: &mut Reader<'_>,
        depth: usize,
        token: Token<'_>,
    ) -> Result<Option<u64>, CertFault> {
        if let Token::Number(text) = token {
            return number::natural(text);
        }
        rest_of(reader, depth, token)?;
        Ok(None)
    }
}

/// Reads the next value; none if it is of another kind.
pub(crate) fn next<T: Kind>(
    alloc: Global,
    reader: &mut Reader<'_>,
    depth: usize,
) -> Result<Option<T>, CertFault>
    ensures ok { IfOk result (λ o. with_value T.kind (data_at depth reader.old)
        ≡ Some (o, reader.new)) }
    ensures err { IfErr result (λ e. Refuses e (with_value T.kind (data_at depth reader.old))) }
{
    let token = first(reader)?;
    T::of(alloc, reader, depth, token)
}

/// Reads the next value, which can be null; none if it is neither null nor of the kind.
pub(crate) fn next_or_null<T: Kind>(
    alloc: Global,
    reader: &mut Reader<'_>,
    depth: usize,
) -> Result<Option<Option<T>>, CertFault>
    ensures ok { IfOk result (λ o. with_value (nullable T.kind) (data_at depth reader.old)
        ≡ Some (o, reader.new)) }
    ensures err { IfErr result (λ e. Refuses e
        (with_value (nullable T.kind) (data_at depth reader.old))) }
{
    let token = first(reader)?;
    if let Token::Null = token {
        return Ok(Some(None));
    }
    match T::of(alloc, reader, depth, token)? {
        Some(value) => Ok(Some(Some(value))),
        None => Ok(None),
    }
}
