//! Parts of a certificate as JSON values.
ghost use Rattle.std.specs.Prelude.{◌≡◌, IfOk};
ghost use Rattle.serde_json.specs.View.{view};
ghost use Rattle.cn_stock_cert.specs.StockText.{each_data};

use cn_joins::Join;
use serde_json::{Value, json};
use std::alloc::{AllocError, Global};

/// A part that comes several times in an array.
pub(crate) trait Part: Drop {
    ghost use Rattle.std.specs.Prelude.{◌≡◌, IfOk};
    ghost use Rattle.serde_json.specs.Data.{Data};
    ghost use Rattle.serde_json.specs.View.{view};

    ghost json: { Self → Data };

    /// Its JSON value.
    fn value(&self, alloc: Global) -> Result<Value, AllocError>
        ensures { IfOk result (λ v. view v ≡ json self.now) };
}

/// An array with the value of each part.
pub(crate) fn array_of<T: Part>(alloc: Global, parts: &[T]) -> Result<Value, AllocError>
    ensures { IfOk result (λ v. view v ≡ each_data T.json parts.now) }
{
    let mut values = Vec::new(alloc);
    for part in parts {
        values.push(part.value(alloc)?)?;
    }
    Ok(Value::Array(values))
}

impl Part for u8 {
    ghost use Rattle.cn_cert.specs.CertificateText.{number_data};

    ghost json = { number_data };

    fn value(&self, _alloc: Global) -> Result<Value, AllocError> {
        Ok(Value::from(*self))
    }
}

impl Part for Join {
    ghost use Rattle.cn_stock_cert.specs.StockText.{join_data};

    ghost json = { join_data };

    fn value(&self, alloc: Global) -> Result<Value, AllocError> {
        let first = array_of(alloc, self.first.word.as_slice())?;
        let second = array_of(alloc, self.second.word.as_slice())?;
        json!(in alloc; [self.start.0, first, self.first.place, second, self.second.place])
    }
}
