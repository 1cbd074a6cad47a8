//! Parts of a certificate as JSON values.
ghost use Rattle.std.specs.Prelude.{◌≡◌, IfOk};
ghost use Rattle.serde_json.specs.View.{view};
ghost use Rattle.cn_unread_cert.specs.UnreadText.{each_data, run_number};

use cn_further::FollowUp;
use cn_game::{Run, Standing, Turn};
use serde_json::{Value, json};
use std::alloc::{AllocError, Global};

/// A part that comes several times in an array.
pub(crate) trait Part: Drop {
    ghost use Rattle.std.specs.Prelude.{◌≡◌, IfOk};
    ghost use Rattle.serde_json.specs.Data.{Data};
    ghost use Rattle.serde_json.specs.View.{view};

    ghost json: { Self → Data };

    /// Its JSON value.
    fn value(&self, alloc: Global) -> Result<Value, AllocError>
        ensures { IfOk result (λ v. view v ≡ json self.now) };
}

/// An array with the value of each part.
pub(crate) fn array_of<T: Part>(alloc: Global, parts: &[T]) -> Result<Value, AllocError>
    ensures { IfOk result (λ v. view v ≡ each_data T.json parts.now) }
{
    let mut values = Vec::new(alloc);
    for part in parts {
        values.push(part.value(alloc)?)?;
    }
    Ok(Value::Array(values))
}

impl Part for u8 {
    ghost use Rattle.cn_cert.specs.CertificateText.{number_data};

    ghost json = { number_data };

    fn value(&self, _alloc: Global) -> Result<Value, AllocError> {
        Ok(Value::from(*self))
    }
}

impl Part for FollowUp {
    ghost use Rattle.cn_unread_cert.specs.UnreadText.{follow_up_data};

    ghost json = { follow_up_data };

    fn value(&self, alloc: Global) -> Result<Value, AllocError> {
        json!(in alloc; [self.operation.0, self.response.0, self.further.0])
    }
}

impl Part for Standing {
    ghost use Rattle.cn_unread_cert.specs.UnreadText.{standing_data};

    ghost json = { standing_data };

    fn value(&self, alloc: Global) -> Result<Value, AllocError> {
        match self {
            Standing::Lost => json!(in alloc; []),
            Standing::Poised(o) => json!(in alloc; [o.0]),
            Standing::AheadInFirst(o, r) => json!(in alloc; [o.0, r.0, 1u8]),
            Standing::AheadInSecond(o, r) => json!(in alloc; [o.0, r.0, 2u8]),
        }
    }
}

/// The number of a run.
fn run_number(run: Run) -> u8
    ensures { result ≡ run_number run }
{
    match run {
        Run::First => 1,
        Run::Second => 2,
    }
}

impl Part for Turn {
    ghost use Rattle.cn_unread_cert.specs.UnreadText.{turn_data};

    ghost json = { turn_data };

    fn value(&self, alloc: Global) -> Result<Value, AllocError> {
        let standings = array_of(alloc, self.board.standings.as_slice())?;
        let (first, second) = (self.board.first.0, self.board.second.0);
        let run = run_number(self.run);
        json!(in alloc; [first, second, standings, self.process, run])
    }
}
