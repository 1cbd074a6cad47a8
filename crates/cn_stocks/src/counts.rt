//! How many stocks there are.
ghost use Rattle.std.specs.Prelude.{◌≡◌, ◌≤◌};
ghost use Rattle.cn_table.specs.declared.limits.TheConstants.{MOST_OPERATIONS};
ghost use Rattle.cn_stocks.specs.declared.limits.TheConstants.{MOST_SIZE};
ghost use Rattle.cn_stocks.specs.Counts.{count_of_stocks};

/// How many stocks of n operations there are out of so many.
pub(crate) fn stock_count(operations: u8, n: u8) -> u32
    requires operations { operations ≤ MOST_OPERATIONS }
    requires n { n ≤ MOST_SIZE }
    ensures { result ≡ count_of_stocks operations n }
{
    if n == 0 {
        return 1;
    }
    if operations == 0 {
        return 0;
    }
    stock_count(operations, n - 1) + stock_count(operations - 1, n)
}
