//! The words of Rust for a wait-free object.
ghost use Rattle.std.specs.Prelude.{◌≡◌};
ghost use Rattle.cn_code.specs.ObjectRustWords.{rust_object_word};

use crate::language::ObjectPart;

const TITLE: &str = "\
`, and for them
// a wait-free object of the type `";

const ABOUT: &str = "\
//
// `Universal` is the wait-free object. It tells how calls go, after how many steps each ends, and
// which memory they take.
";

const STATES: &str = "\
];

/// The names of the states of the wait-free object.
#[rustfmt::skip]
pub const OBJECT_STATES: &[&str] = &[
";

const OPERATIONS: &str = "\
];

/// The names of its operations.
#[rustfmt::skip]
pub const OBJECT_OPERATIONS: &[&str] = &[
";

const RESPONSES: &str = "\
];

/// The names of its responses.
#[allow(dead_code)]
#[rustfmt::skip]
pub const OBJECT_RESPONSES: &[&str] = &[
";

const TRANSITIONS: &str = "\
];

/// Its table: for each operation and state the response and the next state.
#[rustfmt::skip]
pub const OBJECT_TRANSITIONS: [[(usize, usize); OBJECT_STATES.len()]; OBJECT_OPERATIONS.len()] = [
";

const START: &str = "\
];

/// The state in which it starts: `";

const UNIVERSAL: &str = "
/// An object that can be used again.
pub trait Renew: Object {
    /// Puts the object into a state. No other process uses it meanwhile.
    fn renew(&self, state: usize);
}

impl<O: Renew> Consensus<O> {
    /// Puts the decision back to where it began. No other process uses it meanwhile.
    fn renew(&self) {
        for (node, start) in self.nodes.iter().zip(STARTS) {
            node.object.renew(start);
            for register in &node.registers {
                register.store(0, SeqCst);
            }
        }
    }
}

/// What stands in `reached` for a process whose handle is dropped.
const GONE: u64 = u64::MAX;

/// A wait-free object for the processes: each calls its operations, in the one order of a log.
///
/// A process announces its call. It then goes through the slots of the log. For each it gathers the
/// calls that are announced and not yet in the log, and decides with the others which calls stand
/// in the slot. It does these on its own copy of the object, in the order of processes.
///
/// * The responses are those of the object's own run, call by call in the order of the log.
/// * A call that is announced when `f` slots are decided stands in slot `f` or `f + 1`. So it ends
///   after at most `f + 2 - k` slots, where its process knew `k`, whatever the others do. A slot
///   takes `PROCESSES + STEPS` steps.
/// * The log is a chain of blocks of `SLOTS` slots. Each process owns `BLOCKS` blocks, and proposes
///   one where the log needs the next. It uses a block again once all have reached a later one. So
///   memory stays at `PROCESSES * BLOCKS * (SLOTS + 1)` decisions, however many calls there are.
/// * A process with no block left gets [`Full`]. Then another process has made no call for long: it
///   is more than `(BLOCKS - 2) * SLOTS` slots behind. [`Caller::catch_up`] brings it up, and a
///   handle that is dropped holds nobody up.
#[derive(Debug)]
pub struct Universal<O, const SLOTS: usize = 32, const BLOCKS: usize = 4> {
    blocks: [[Block<O, SLOTS>; BLOCKS]; PROCESSES],
    registers: Registers,
}

/// A piece of the log.
#[derive(Debug)]
struct Block<O, const SLOTS: usize> {
    /// Which calls stand in each slot: a byte for each process, its operation + 1, or 0.
    slots: [Consensus<O>; SLOTS],
    /// Which block is next.
    next: Consensus<O>,
    /// The number of the block in the log, from 1, or 0. Its owner alone uses this register.
    number: AtomicU64,
}

/// What each process tells the others.
#[derive(Debug)]
pub struct Registers {
    /// The last call of each process: its number from 1, and in the lowest byte the operation + 1.
    announcements: [AtomicU64; PROCESSES],
    /// The number of the block that each process has reached.
    reached: [AtomicU64; PROCESSES],
}

impl<O, const SLOTS: usize, const BLOCKS: usize> AsRef<Registers> for Universal<O, SLOTS, BLOCKS> {
    fn as_ref(&self) -> &Registers {
        &self.registers
    }
}

#[allow(dead_code)]
impl<O: Renew, const SLOTS: usize, const BLOCKS: usize> Universal<O, SLOTS, BLOCKS> {
    /// A call may come to the end of one block before it ends, but not of two.
    const LEAST: () = assert!(SLOTS >= 2 && BLOCKS >= 2, \"SLOTS and BLOCKS are at least 2\");

    /// Makes the object in its state `OBJECT_START`, and the handle of each process.
    ///
    /// `make` makes an object of consensus in a state. `share` puts the whole where the processes
    /// share it, as [`Consensus::processes`] says.
    pub fn callers<P>(
        make: impl FnMut(usize) -> O,
        share: impl FnOnce(Self) -> P,
    ) -> [Caller<P>; PROCESSES]
    where
        P: Deref<Target = Self> + Clone,
    {
        let universal = share(Universal::new(make));
        array::from_fn(|number| Caller::new(universal.clone(), number))
    }

    fn new(mut make: impl FnMut(usize) -> O) -> Self {
        let () = Self::LEAST;
        let universal = Universal {
            blocks: array::from_fn(|_| array::from_fn(|_| Block::new(&mut make))),
            registers: Registers {
                announcements: array::from_fn(|_| AtomicU64::new(0)),
                reached: array::from_fn(|_| AtomicU64::new(1)),
            },
        };
        universal.blocks[0][0].number.store(1, SeqCst);
        universal
    }
}

impl<O: Renew, const SLOTS: usize> Block<O, SLOTS> {
    fn new(make: &mut impl FnMut(usize) -> O) -> Self {
        Block {
            slots: array::from_fn(|_| Consensus::new(&mut *make)),
            next: Consensus::new(make),
            number: AtomicU64::new(0),
        }
    }

    fn renew(&self) {
        for slot in &self.slots {
            slot.renew();
        }
        self.next.renew();
        self.number.store(0, SeqCst);
    }
}

/// A call found no block to go on with, and has changed nothing.
#[derive(Clone, Copy, Debug, PartialEq, Eq)]
pub struct Full;

impl fmt::Display for Full {
    fn fmt(&self, text: &mut fmt::Formatter<'_>) -> fmt::Result {
        text.write_str(\"another process is too far behind in the log\")
    }
}

/// The handle of a process on a [`Universal`]. There is one for each, and no copy.
#[derive(Debug)]
pub struct Caller<P>
where
    P: Deref,
    P::Target: AsRef<Registers>,
{
    universal: P,
    number: usize,
    /// The calls of the process.
    calls: u64,
    /// The calls of each process in the slots so far.
    done: [u64; PROCESSES],
    /// The state of the object behind them.
    state: usize,
    /// The owner of the block, its place among the owner's, its number in the log, and the slot.
    owner: usize,
    place: usize,
    block: u64,
    slot: usize,
    /// The place of the own block that is used next.
    spare: usize,
}

#[allow(dead_code)]
impl<O: Renew, P, const SLOTS: usize, const BLOCKS: usize> Caller<P>
where
    P: Deref<Target = Universal<O, SLOTS, BLOCKS>>,
{
    fn new(universal: P, number: usize) -> Self {
        Caller {
            universal,
            number,
            calls: 0,
            done: [0; PROCESSES],
            state: OBJECT_START,
            owner: 0,
            place: 0,
            block: 1,
            slot: 0,
            // The log begins with the first block of process 0.
            spare: usize::from(number == 0),
        }
    }

    /// The number of the process, below `PROCESSES`.
    pub fn number(&self) -> usize {
        self.number
    }

    /// Calls an operation of the object, and returns the response.
    ///
    /// # Errors
    ///
    /// [`Full`] if the process has no block left. Then the call is not made.
    ///
    /// # Panics
    ///
    /// If there is no such operation, or if an object of consensus breaks its table.
    pub fn call(&mut self, operation: usize) -> Result<usize, Full> {
        assert!(operation < OBJECT_OPERATIONS.len(), \"no such operation\");
        self.prepare_spare()?;
        self.calls += 1;
        let call = self.calls << 8 | (operation as u64 + 1);
        self.universal.registers.announcements[self.number].store(call, SeqCst);
        loop {
            if let Some(response) = self.pass_slot() {
                return Ok(response);
            }
        }
    }

    /// Goes on to the last call that is announced now. A process that makes no calls for long holds
    /// no other up if it does this from time to time.
    ///
    /// # Errors
    ///
    /// [`Full`] if the process has no block left. Then another one is further behind.
    pub fn catch_up(&mut self) -> Result<(), Full> {
        self.prepare_spare()?;
        let announcements = &self.universal.registers.announcements;
        let calls: [u64; PROCESSES] = array::from_fn(|it| announcements[it].load(SeqCst) >> 8);
        while (0..PROCESSES).any(|it| self.done[it] < calls[it]) {
            self.pass_slot();
        }
        Ok(())
    }

    /// Sees to it that the spare is as new.
    fn prepare_spare(&self) -> Result<(), Full> {
        let spare = &self.universal.blocks[self.number][self.spare];
        let number = spare.number.load(SeqCst);
        let reached = &self.universal.registers.reached;
        if number > 0 {
            if reached.iter().any(|reached| reached.load(SeqCst) <= number) {
                return Err(Full);
            }
            spare.renew();
        }
        Ok(())
    }

    /// Goes through one slot, and returns the response to the own call if it stands there.
    fn pass_slot(&mut self) -> Option<usize> {
        if self.slot == SLOTS {
            self.pass_end();
        }
        let batch = self.gather();
        let slot = &self.universal.blocks[self.owner][self.place].slots[self.slot];
        let decided = slot.decide(self.number, batch);
        self.slot += 1;
        self.apply(decided)
    }

    /// Goes from the end of a block to the next one.
    fn pass_end(&mut self) {
        let next = &self.universal.blocks[self.owner][self.place].next;
        let mine = self.number * BLOCKS + self.spare;
        let decided = next.decide(self.number, mine as u64) as usize;
        self.owner = decided / BLOCKS;
        self.place = decided % BLOCKS;
        self.block += 1;
        self.slot = 0;
        if decided == mine {
            let block = &self.universal.blocks[self.owner][self.place];
            block.number.store(self.block, SeqCst);
            self.spare = (self.spare + 1) % BLOCKS;
        }
        self.universal.registers.reached[self.number].store(self.block, SeqCst);
    }

    /// The calls that are announced and do not stand in the slots so far. Where a later call than
    /// the next one is announced, this slot is decided already, and the batch plays no part.
    fn gather(&self) -> u64 {
        let mut batch = 0;
        let announcements = self.universal.registers.announcements.iter();
        for (process, (announcement, done)) in announcements.zip(&self.done).enumerate() {
            let call = announcement.load(SeqCst);
            if call >> 8 > *done {
                batch |= (call & 0xff) << (8 * process);
            }
        }
        batch
    }

    /// Does the calls of a slot, and returns the response to the own one.
    fn apply(&mut self, batch: u64) -> Option<usize> {
        assert!(batch > 0, \"an object of consensus breaks its table\");
        let mut own = None;
        for (process, byte) in batch.to_le_bytes().iter().enumerate() {
            if *byte > 0 {
                let (response, next) = OBJECT_TRANSITIONS[usize::from(byte - 1)][self.state];
                self.state = next;
                self.done[process] += 1;
                if process == self.number {
                    own = Some(response);
                }
            }
        }
        own
    }
}

impl<P> Drop for Caller<P>
where
    P: Deref,
    P::Target: AsRef<Registers>,
{
    fn drop(&mut self) {
        (*self.universal).as_ref().reached[self.number].store(GONE, SeqCst);
    }
}
";

pub(super) fn rust_object_word(part: ObjectPart) -> &'static str
    ensures { result.now ≡ rust_object_word part }
{
    match part {
        ObjectPart::Title => TITLE,
        ObjectPart::About => ABOUT,
        ObjectPart::Full => "",
        ObjectPart::Interface => "",
        ObjectPart::States => STATES,
        ObjectPart::Operations => OPERATIONS,
        ObjectPart::Responses => RESPONSES,
        ObjectPart::Transitions => TRANSITIONS,
        ObjectPart::Start => START,
        ObjectPart::StartNumber => "`.\npub const OBJECT_START: usize = ",
        ObjectPart::StartEnd => ";\n",
        ObjectPart::Universal => UNIVERSAL,
    }
}
