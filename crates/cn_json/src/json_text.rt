//! JSON texts, written token by token.
ghost use Rattle.std.specs.Prelude.{◌≡◌, ◌++◌, ◌∷◌, [], decimal, string_bytes, IfOk};
ghost use Rattle.json.specs.Token.{begin_array, begin_object, boolean, end_array, end_object, key, null, number, string};
ghost use Rattle.serde_json.specs.Data.{Data};
ghost use Rattle.serde_json.specs.Written.{compact_text};
ghost use Rattle.cn_json.specs.Tokens.{each_member, Appends, value_tokens};
ghost use Rattle.cn_json.specs.Values.{primitive_data};

use json::Writer;
use std::alloc::{AllocError, Global};
use std::marker::Model;

/// A value that is neither an array nor an object.
#[derive(Clone, Copy)]
pub(crate) enum Primitive<'a> {
    Text(&'a str),
    Number(u64),
    /// A number of one byte.
    Byte(u8),
    Boolean(bool),
    Null,
}

/// A JSON text that is being written, as its tokens.
#[derive(Drop)]
pub(crate) struct JsonText {
    writer: Writer,
}

impl Model for JsonText {
    ghost use Rattle.std.specs.Prelude.{◌≡◌, List, []};
    ghost use Rattle.json.specs.Token.{Token, tokens_code};

    ghost Value = { List Token };

    ghost coded = { tokens_code };

    ghost view = { λ text. text.writer.tokens };

    ghost invariant = { λ text. text.writer.before ≡ [] };
}

impl JsonText {
    ghost use Rattle.cn_json.specs.Tokens.{member_tokens};

    pub(crate) fn new(alloc: Global) -> JsonText
        ensures { result ≡ [] }
    {
        JsonText {
            writer: Writer::new(Vec::new(alloc)),
        }
    }

    /// With room for so many bytes.
    pub(crate) fn with_capacity(alloc: Global, bytes: usize) -> Result<JsonText, AllocError>
        ensures { IfOk result (λ text. text ≡ []) }
    {
        Ok(JsonText {
            writer: Writer::new(Vec::with_capacity(alloc, bytes)?),
        })
    }

    /// The compact text of the value whose tokens were written.
    pub(crate) fn finish(self) -> String
        ensures { (d : Data) → self ≡ value_tokens d → string_bytes result ≡ compact_text d }
    {
        let JsonText { writer } = self;
        unsafe { String::from_utf8_unchecked(writer.into_inner()) }
    }

    pub(crate) fn begin_object(&mut self) -> Result<(), AllocError>
        ensures { Appends result self.old self.new (begin_object ∷ []) }
    {
        self.writer.begin_object()
    }

    pub(crate) fn end_object(&mut self) -> Result<(), AllocError>
        ensures { Appends result self.old self.new (end_object ∷ []) }
    {
        self.writer.end_object()
    }

    pub(crate) fn begin_array(&mut self) -> Result<(), AllocError>
        ensures { Appends result self.old self.new (begin_array ∷ []) }
    {
        self.writer.begin_array()
    }

    pub(crate) fn end_array(&mut self) -> Result<(), AllocError>
        ensures { Appends result self.old self.new (end_array ∷ []) }
    {
        self.writer.end_array()
    }

    pub(crate) fn key(&mut self, name: &str) -> Result<(), AllocError>
        ensures { Appends result self.old self.new (key name.now ∷ []) }
    {
        self.writer.key(name)
    }

    pub(crate) fn text(&mut self, text: &str) -> Result<(), AllocError>
        ensures { Appends result self.old self.new (string text.now ∷ []) }
    {
        self.writer.string(text)
    }

    pub(crate) fn number(&mut self, n: u64) -> Result<(), AllocError>
        ensures { Appends result self.old self.new (number (decimal n) ∷ []) }
    {
        self.writer.u64(n)
    }

    pub(crate) fn boolean(&mut self, b: bool) -> Result<(), AllocError>
        ensures { Appends result self.old self.new (boolean b ∷ []) }
    {
        self.writer.boolean(b)
    }

    pub(crate) fn null(&mut self) -> Result<(), AllocError>
        ensures { Appends result self.old self.new (null ∷ []) }
    {
        self.writer.null()
    }

    fn primitive(&mut self, value: Primitive<'_>) -> Result<(), AllocError>
        ensures { Appends result self.old self.new (value_tokens (primitive_data value.entry)) }
    {
        match value {
            Primitive::Text(text) => self.text(text),
            Primitive::Number(n) => self.number(n),
            Primitive::Byte(n) => self.number(u64::from(n)),
            Primitive::Boolean(b) => self.boolean(b),
            Primitive::Null => self.null(),
        }
    }

    /// A key and a value.
    pub(crate) fn member(&mut self, name: &str, value: Primitive<'_>) -> Result<(), AllocError>
        ensures { Appends result self.old self.new
            (member_tokens name.now (primitive_data value.entry)) }
    {
        self.key(name)?;
        self.primitive(value)
    }

    /// Keys and their values.
    pub(crate) fn members(&mut self, members: &[(&str, Primitive<'_>)]) -> Result<(), AllocError>
        ensures { Appends result self.old self.new (each_member members.now) }
    {
        for (name, value) in members {
            self.member(*name, *value)?;
        }
        Ok(())
    }

    /// The members that are left of an object, and its end.
    pub(crate) fn last_members(
        &mut self,
        members: &[(&str, Primitive<'_>)],
    ) -> Result<(), AllocError>
        ensures { Appends result self.old self.new (each_member members.now ++ end_object ∷ []) }
    {
        self.members(members)?;
        self.end_object()
    }

    /// An object with these members.
    pub(crate) fn object(&mut self, members: &[(&str, Primitive<'_>)]) -> Result<(), AllocError>
        ensures { Appends result self.old self.new
            (begin_object ∷ (each_member members.now ++ end_object ∷ [])) }
    {
        self.begin_object()?;
        self.last_members(members)
    }

    /// A key and the beginning of an array.
    pub(crate) fn begin_array_at(&mut self, name: &str) -> Result<(), AllocError>
        ensures { Appends result self.old self.new (key name.now ∷ begin_array ∷ []) }
    {
        self.key(name)?;
        self.begin_array()
    }
}
