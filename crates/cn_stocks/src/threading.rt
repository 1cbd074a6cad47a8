//! In which threads a search goes on.
ghost use Rattle.std.specs.Prelude.{◌≡◌, ◌-◌, ◌^◌, ◌≤◌};
ghost use Rattle.cn_stocks.specs.declared.threading.Threading.TheVariants.{Many, One};

/// The fewest stocks of a list that several threads go over.
const FEWEST_SHARED_STOCKS: usize = 2048;

/// In which threads a search goes on. The answer does not depend on it.
#[derive(Clone, Copy)]
pub enum Threading {
    /// In the caller's thread alone.
    One,
    /// In the caller's thread and in further ones, as far as the system starts them.
    Many,
}

impl Threading {
    /// The least number of items of a list for which one thread more is started.
    pub fn least_piece(self) -> usize
        // promise: least-piece
        ensures one { self ≡ One → result ≡ 2 ^ 64 - 1 }
        // promise: least-piece
        ensures many { self ≡ Many → result ≡ 1 }
    {
        match self {
            Threading::One => usize::MAX,
            Threading::Many => 1,
        }
    }

    /// In which threads a list of so many stocks is gone over. A short list is done sooner than a
    /// thread starts.
    pub fn for_stocks(self, count: usize) -> Threading
        // promise: choice-of-threads
        ensures one { self ≡ One → result ≡ One }
        // promise: choice-of-threads
        ensures many { FEWEST_SHARED_STOCKS ≤ count → result ≡ self }
    {
        if count < FEWEST_SHARED_STOCKS {
            return Threading::One;
        }
        self
    }
}
