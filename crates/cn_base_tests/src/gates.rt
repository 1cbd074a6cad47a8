//! Gates, and counts by which calls wait for one another.
ghost use Rattle.cn_hall.specs.declared.call.Go.TheVariants.{On};

use cn_hall::{Gate, Go, Seat};
use std::sync::atomic::{AtomicU32, Ordering};
use std::thread;

/// A gate that stops before the step of one number.
#[derive(Drop)]
pub struct StopsAt {
    pub stop: u32,
    pub last: Go,
}

impl Gate for StopsAt {
    ghost use Rattle.std.specs.Prelude.{◌≡◌, cond, nat_eq};
    ghost use Rattle.cn_hall.specs.declared.call.Go.TheVariants.{On, Stop};

    ghost says = { λ g. g.last };

    ghost asks = { λ old _ step new. (new.stop ≡ old.stop)
        × (new.last ≡ cond (nat_eq step old.stop) Stop On) };

    fn before(&mut self, _seat: &Seat, step: u32) -> Go {
        self.last = if step == self.stop { Go::Stop } else { Go::On };
        self.last
    }

    fn said(&self) -> Go {
        self.last
    }
}

/// A gate that counts up before one step, and holds its call before one step until a count reaches
/// a number. If the count does not reach it, the gate stops the call.
#[derive(Drop)]
pub struct Holds<'a> {
    pub counted: &'a AtomicU32,
    pub counts_at: u32,
    pub awaited: &'a AtomicU32,
    pub holds_at: u32,
    pub number: u32,
    pub last: Go,
}

impl Gate for Holds<'_> {
    ghost says = { λ g. g.last };

    ghost asks = { λ _ _ _ _. Unit {0} };

    fn before(&mut self, _seat: &Seat, step: u32) -> Go {
        if step == self.counts_at {
            self.counted.fetch_add(1, Ordering::SeqCst);
        }
        self.last = if step != self.holds_at || comes_to(self.awaited, self.number) {
            Go::On
        } else {
            Go::Stop
        };
        self.last
    }

    fn said(&self) -> Go {
        self.last
    }
}

/// Whether the count reaches the number within 1,000,000 looks.
pub fn comes_to(count: &AtomicU32, number: u32) -> bool {
    for _look in 0..1_000_000u32 {
        if count.load(Ordering::SeqCst) >= number {
            return true;
        }
        thread::yield_now();
    }
    false
}

/// A gate that writes down its questions, as far as it has room: the number of the step, and how
/// many slots the seat has seen.
#[derive(Drop)]
pub struct WritesDown {
    pub asked: [(u32, u16); 16],
    pub times: usize,
}

impl Gate for WritesDown {
    ghost use Rattle.cn_hall.specs.declared.call.Go.TheVariants.{On};

    ghost says = { λ _. On };

    ghost asks = { λ _ _ _ _. Unit {0} };

    fn before(&mut self, seat: &Seat, step: u32) -> Go {
        if let Some(place) = self.asked.get_mut(self.times) {
            *place = (step, seat.seen_slots());
        }
        self.times = self.times.saturating_add(1);
        Go::On
    }

    fn said(&self) -> Go {
        Go::On
    }
}
