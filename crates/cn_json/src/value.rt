//! Things with a JSON value, and the arrays of their values.
ghost use Rattle.std.specs.Prelude.{◌≡◌, All, IfSome, replicate};
ghost use Rattle.cn_json.specs.Choices.{of_processes};
ghost use Rattle.cn_json.specs.Tokens.{each_value, Appends, list_rest, member_tokens, value_tokens, values_rest};
ghost use Rattle.cn_json.specs.Values.{list_data, option_data};

use crate::json_text::JsonText;
use cn_table::Table;
use std::alloc::AllocError;

/// Memory of things that are let go is given back after so many of them.
const LET_GO: usize = 4096;

/// What has a JSON value, in which the names are those of a table.
pub(crate) trait JsonValue {
    ghost use Rattle.serde_json.specs.Data.{Data};
    ghost use Rattle.cn_table.specs.TypeTable.{TypeTable};
    ghost use Rattle.cn_json.specs.Tokens.{Appends, value_tokens};

    /// The table has its states, responses and operations.
    ghost IsKnown: { TypeTable → Self → Type 0 };

    ghost json: { TypeTable → Self → Data };

    fn write(&self, out: &mut JsonText, table: &Table) -> Result<(), AllocError>
        requires { IsKnown table.now self.now }
        ensures { Appends result out.old out.new (value_tokens (json table.now self.now)) };
}

/// What has the same JSON value for each of its processes.
pub(crate) trait OfProcesses: JsonValue {
    ghost use Rattle.std.specs.Prelude.{◌≡◌, ℕ};

    ghost count: { Self → ℕ };

    /// The number of its processes.
    fn processes(&self) -> u8
        ensures { result ≡ count self.now };
}

/// Gives back the memory of things that are gone, of many at a time.
fn let_go<T>(things: &mut Vec<T>)
    ensures { things.new.items ≡ things.old.items }
{
    if things.len() % LET_GO == 0 {
        things.shrink_to_fit();
    }
}

impl JsonText {
    /// The values of an array, and its end.
    fn values<T: JsonValue>(&mut self, table: &Table, things: &[T]) -> Result<(), AllocError>
        requires { All (T.IsKnown table.now) things.now }
        ensures { Appends result self.old self.new (list_rest (T.json table.now) things.now) }
    {
        for thing in things {
            thing.write(self, table)?;
        }
        self.end_array()
    }

    /// An array with the value of each thing.
    pub(crate) fn array<T: JsonValue>(
        &mut self,
        table: &Table,
        things: &[T],
    ) -> Result<(), AllocError>
        requires { All (T.IsKnown table.now) things.now }
        ensures { Appends result self.old self.new
            (value_tokens (list_data (T.json table.now) things.now)) }
    {
        self.begin_array()?;
        self.values(table, things)
    }

    /// A key and an array with the value of each thing.
    pub(crate) fn array_at<T: JsonValue>(
        &mut self,
        name: &str,
        table: &Table,
        things: &[T],
    ) -> Result<(), AllocError>
        requires { All (T.IsKnown table.now) things.now }
        ensures { Appends result self.old self.new
            (member_tokens name.now (list_data (T.json table.now) things.now)) }
    {
        self.key(name)?;
        self.array(table, things)
    }

    /// The values of an array, and its end. Each thing is let go behind its value, so that the text
    /// and all things are never in memory together.
    fn values_of<T: JsonValue + Drop>(
        &mut self,
        table: &Table,
        mut things: Vec<T>,
    ) -> Result<(), AllocError>
        requires { All (T.IsKnown table.now) things.items }
        ensures { Appends result self.old self.new (list_rest (T.json table.now) things.items) }
    {
        things.reverse();
        while let Some(thing) = things.pop() {
            thing.write(self, table)?;
            let_go(&mut things);
        }
        self.end_array()
    }

    /// A key and an array with the value of each thing, which is let go.
    pub(crate) fn array_of<T: JsonValue + Drop>(
        &mut self,
        name: &str,
        table: &Table,
        things: Vec<T>,
    ) -> Result<(), AllocError>
        requires { All (T.IsKnown table.now) things.items }
        ensures { Appends result self.old self.new
            (member_tokens name.now (list_data (T.json table.now) things.items)) }
    {
        self.key(name)?;
        self.begin_array()?;
        self.values_of(table, things)
    }

    /// The value of a thing, or null.
    fn option<T: JsonValue>(&mut self, table: &Table, thing: &Option<T>) -> Result<(), AllocError>
        requires { IfSome thing.now (T.IsKnown table.now) }
        ensures { Appends result self.old self.new
            (value_tokens (option_data (T.json table.now) thing.now)) }
    {
        match thing {
            Some(thing) => thing.write(self, table),
            None => self.null(),
        }
    }

    /// A key and the value of a thing, or null.
    pub(crate) fn option_at<T: JsonValue>(
        &mut self,
        name: &str,
        table: &Table,
        thing: &Option<T>,
    ) -> Result<(), AllocError>
        requires { IfSome thing.now (T.IsKnown table.now) }
        ensures { Appends result self.old self.new
            (member_tokens name.now (option_data (T.json table.now) thing.now)) }
    {
        self.key(name)?;
        self.option(table, thing)
    }

    /// The same value so many times.
    #[tactic(auto, using(crate::proofs::Arrays::one_more))]
    fn copies<T: JsonValue>(
        &mut self,
        table: &Table,
        thing: &T,
        count: u8,
    ) -> Result<(), AllocError>
        requires { T.IsKnown table.now thing.now }
        ensures { Appends result self.old self.new
            (each_value (replicate count (T.json table.now thing.now))) }
    {
        for _i in 0..count {
            thing.write(self, table)?;
        }
        Ok(())
    }

    /// The value of each process of these things.
    #[tactic(auto, using(crate::proofs::Arrays::each_joined))]
    pub(crate) fn processes<T: OfProcesses>(
        &mut self,
        table: &Table,
        things: &[T],
    ) -> Result<(), AllocError>
        requires { All (T.IsKnown table.now) things.now }
        ensures { Appends result self.old self.new
            (each_value (of_processes T.count (T.json table.now) things.now)) }
    {
        for thing in things {
            self.copies(table, thing, thing.processes())?;
        }
        Ok(())
    }

    /// The value of each process of these things, and the end of their array.
    pub(crate) fn last_processes<T: OfProcesses>(
        &mut self,
        table: &Table,
        things: &[T],
    ) -> Result<(), AllocError>
        requires { All (T.IsKnown table.now) things.now }
        ensures { Appends result self.old self.new
            (values_rest (of_processes T.count (T.json table.now) things.now)) }
    {
        self.processes(table, things)?;
        self.end_array()
    }
}
