//! Parts of a certificate as JSON values.
ghost use Rattle.std.specs.Prelude.{◌≡◌, IfOk};
ghost use Rattle.serde_json.specs.View.{view};
ghost use Rattle.cn_tree_cert.specs.TreeText.{each_data, sight_data};

use crate::certificate::TreeNode;
use cn_meetings::Sight;
use cn_table::Operation;
use serde_json::{Value, json};
use std::alloc::{AllocError, Global};

/// A part that comes several times in an array.
pub(crate) trait Part: Drop {
    ghost use Rattle.std.specs.Prelude.{◌≡◌, IfOk};
    ghost use Rattle.serde_json.specs.Data.{Data};
    ghost use Rattle.serde_json.specs.View.{view};

    ghost json: { Self → Data };

    /// Its JSON value.
    fn value(&self, alloc: Global) -> Result<Value, AllocError>
        ensures { IfOk result (λ v. view v ≡ json self.now) };
}

/// An array with the value of each part.
pub(crate) fn array_of<T: Part>(alloc: Global, parts: &[T]) -> Result<Value, AllocError>
    ensures { IfOk result (λ v. view v ≡ each_data T.json parts.now) }
{
    let mut values = Vec::new(alloc);
    for part in parts {
        values.push(part.value(alloc)?)?;
    }
    Ok(Value::Array(values))
}

impl Part for u8 {
    ghost use Rattle.cn_cert.specs.CertificateText.{number_data};

    ghost json = { number_data };

    fn value(&self, _alloc: Global) -> Result<Value, AllocError> {
        Ok(Value::from(*self))
    }
}

impl Part for Operation {
    ghost use Rattle.cn_tree_cert.specs.TreeText.{operation_data};

    ghost json = { operation_data };

    fn value(&self, _alloc: Global) -> Result<Value, AllocError> {
        Ok(Value::from(self.0))
    }
}

fn sight_value(sight: Sight) -> Value
    ensures { view result ≡ sight_data sight }
{
    match sight {
        Sight::State => Value::from(true),
        Sight::Nothing => Value::from(false),
        Sight::Response(operation) => Value::from(operation.0),
    }
}

impl Part for TreeNode {
    ghost use Rattle.cn_tree_cert.specs.TreeText.{node_data};

    ghost json = { node_data };

    fn value(&self, alloc: Global) -> Result<Value, AllocError> {
        let sight = sight_value(self.sight);
        let operations = array_of(alloc, self.operations.as_slice())?;
        let teams = array_of(alloc, self.teams.as_slice())?;
        json!(in alloc; [self.start.0, sight, operations, teams])
    }
}
