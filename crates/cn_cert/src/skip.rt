//! Values that are passed over.
ghost use Rattle.std.specs.Prelude.{◌≡◌, ◌∷◌, MatchResult, IfOk, IfErr, Some, None, [], option_map};
ghost use Rattle.json.specs.Json.{read_key};
ghost use Rattle.json.specs.Reads.{token_of};
ghost use Rattle.cn_cert.specs.Reads.{Refuses};
ghost use Rattle.cn_cert.specs.Tokens.{data_at, items_at, members_at, with_value, nothing};
ghost use Rattle.serde_json.specs.Data.{no_members};

use crate::fault::CertFault;
use crate::number::natural;
use json::{Reader, Token};

#[inline(always)]
pub(crate) fn first<'a>(reader: &mut Reader<'a>) -> Result<Token<'a>, CertFault>
    ensures first { IfOk result (λ t. reader.old ≡ token_of t ∷ reader.new) }
    ensures none { IfErr result (λ e. (e ≡ CertFault.NotJson) × (reader.old ≡ [])) }
{
    reader.next().ok_or(CertFault::NotJson)
}

/// The next key of an object; none at its end.
pub(crate) fn key<'a>(reader: &mut Reader<'a>) -> Result<Option<&'a str>, CertFault>
    ensures { MatchResult result
        (λ k. read_key reader.old ≡ Some (option_map (λ s. s.now) k, reader.new))
        (λ e. (e ≡ CertFault.NotJson) × (read_key reader.old ≡ None)) }
{
    match reader.next_key() {
        Ok(key) => Ok(key),
        Err(_) => Err(CertFault::NotJson),
    }
}

/// Passes over the rest of the value that begins with this token.
#[cycle(skip)]
pub(crate) fn rest_of(
    reader: &mut Reader<'_>,
    depth: usize,
    token: Token<'_>,
) -> Result<(), CertFault>
    ensures ok { IfOk result (λ u. with_value nothing
        (data_at depth (token_of token.entry ∷ reader.old)) ≡ Some (u, reader.new)) }
    ensures err { IfErr result (λ e. Refuses e
        (with_value nothing (data_at depth (token_of token.entry ∷ reader.old)))) }
{
    match token {
        Token::String(_) | Token::Bool(_) | Token::Null => Ok(()),
        Token::Number(text) => {
            let _number = natural(text)?;
            Ok(())
        }
        Token::EndObject | Token::EndArray | Token::Key(_) | Token::Bad => Err(CertFault::NotJson),
        Token::BeginArray => {
            if depth == 0 {
                return Err(CertFault::NotJson);
            }
            rest_of_items(reader, depth - 1)
        }
        Token::BeginObject => {
            if depth == 0 {
                return Err(CertFault::NotJson);
            }
            rest_of_members(reader, depth - 1)
        }
    }
}

#[cycle(skip)]
pub(crate) fn rest_of_items(reader: &mut Reader<'_>, depth: usize) -> Result<(), CertFault>
    ensures ok { IfOk result (λ u. with_value nothing (items_at depth reader.old)
        ≡ Some (u, reader.new)) }
    ensures err { IfErr result (λ e. Refuses e (with_value nothing (items_at depth reader.old))) }
{
    'items: while !reader.take_end_array() {
        let token = first(reader)?;
        rest_of(reader, depth, token)?;
    }
    Ok(())
}

#[cycle(skip)]
fn rest_of_members(reader: &mut Reader<'_>, depth: usize) -> Result<(), CertFault>
    ensures ok { IfOk result (λ u. with_value nothing (members_at depth no_members reader.old)
        ≡ Some (u, reader.new)) }
    ensures err { IfErr result (λ e. Refuses e
        (with_value nothing (members_at depth no_members reader.old))) }
{
    'members: while let Some(_) = key(reader)? {
        let token = first(reader)?;
        rest_of(reader, depth, token)?;
    }
    Ok(())
}
