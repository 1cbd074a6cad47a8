//! Lines of text on the stack.
//!
//! A line has room for the longest entry of a certificate, so that no character is put with a test
//! for room. A string then takes the whole entry at once.
ghost use Rattle.std.specs.Prelude.{◌≡◌, ◌+◌, ◌*◌, ◌<◌, ◌≤◌, ◌++◌, ◌∷◌, [], decimal, length, take, IsAscii};
ghost use Rattle.serde_json.specs.Written.{compact_text};
ghost use Rattle.cn_choice.specs.declared.limits.TheConstants.{MOST_PROCESSES};
ghost use Rattle.cn_cert.specs.declared.line.TheConstants.{ROOM};
ghost use Rattle.cn_cert.specs.CertificateText.{numbers_data, choice_data, collision_data, triple_text};

use cn_choice::Choice;

// The longest entry has 149 characters: its numbers have three digits, and its lists eight numbers.
const ROOM: usize = 160;

/// ASCII characters. The text of a line is what stands before a place that its writer knows.
#[derive(Drop)]
pub(crate) struct Line {
    pub bytes: [u8; ROOM],
    ghost ascii: { IsAscii bytes },
}

impl Line {
    pub(crate) fn new() -> Line {
        Line { bytes: [0; ROOM] }
    }

    /// The text up to this place.
    pub(crate) fn text(&self, end: usize) -> &str
        requires { end ≤ ROOM }
        ensures { result.now ≡ take end self.now.bytes }
    {
        unsafe { str::from_utf8_unchecked(&self.bytes[..end]) }
    }

    /// Puts a character at a place, and returns the next place.
    #[inline(always)]
    pub(crate) fn put(&mut self, at: usize, byte: u8) -> usize
        requires room { at < ROOM }
        requires ascii { byte < 128 }
        ensures text { take result self.new.bytes ≡ take at self.old.bytes ++ byte ∷ [] }
        ensures next { result ≡ at + 1 }
    {
        self.bytes[at] = byte;
        at + 1
    }

    #[inline(never)]
    fn put_long_number(&mut self, at: usize, n: u8) -> usize
        requires { at + 3 ≤ ROOM }
        ensures text { take result self.new.bytes ≡ take at self.old.bytes ++ decimal n }
        ensures within { result ≤ at + 3 }
    {
        let mut buffer = itoa::Buffer::new();
        let digits = buffer.format(n).as_bytes();
        let end = at + digits.len();
        self.bytes[at..end].copy_from_slice(digits);
        end
    }

    /// Puts a number at a place, and returns the place behind it.
    #[inline(always)]
    fn put_number(&mut self, at: usize, n: u8) -> usize
        requires { at + 3 ≤ ROOM }
        ensures text { take result self.new.bytes ≡ take at self.old.bytes ++ decimal n }
        ensures within { result ≤ at + 3 }
    {
        if n < 10 {
            self.put(at, b'0' + n)
        } else {
            self.put_long_number(at, n)
        }
    }

    #[inline(always)]
    fn put_numbers(&mut self, at: usize, list: &[u8]) -> usize
        requires { at + 2 + 4 * length list.now ≤ ROOM }
        ensures text { take result self.new.bytes
            ≡ take at self.old.bytes ++ compact_text (numbers_data list.now) }
        ensures within { result ≤ at + 2 + 4 * length list.now }
    {
        let mut end = self.put(at, b'[');
        let mut later = false;
        for n in list {
            if later {
                end = self.put(end, b',');
            }
            end = self.put_number(end, *n);
            later = true;
        }
        self.put(end, b']')
    }

    /// Puts a number and two lists: a state with its teams, or a process with its orders.
    #[inline(always)]
    fn put_triple(&mut self, at: usize, n: u8, a: &[u8], b: &[u8]) -> usize
        requires room { at + 73 ≤ ROOM }
        requires short { (length a.now ≤ MOST_PROCESSES) × (length b.now ≤ MOST_PROCESSES) }
        ensures text { take result self.new.bytes
            ≡ take at self.old.bytes ++ triple_text n a.now b.now }
        ensures within { result ≤ at + 73 }
    {
        let behind_n = self.put_number(at, n);
        let at_a = self.put(behind_n, b',');
        let behind_a = self.put_numbers(at_a, a);
        let at_b = self.put(behind_a, b',');
        self.put_numbers(at_b, b)
    }

    /// Puts a choice at the start.
    pub(crate) fn put_choice(&mut self, choice: &Choice) -> usize
        ensures text { take result self.new.bytes ≡ compact_text (choice_data choice.now) }
        ensures within { result ≤ 75 }
    {
        let (a, b) = (choice.a.as_slice(), choice.b.as_slice());
        let at = self.put(0, b'[');
        let end = self.put_triple(at, choice.state.0, a, b);
        self.put(end, b']')
    }

    /// Puts a choice, a process and its orders at the start, as an entry.
    #[inline(always)]
    pub(crate) fn put_entry(
        &mut self,
        choice: &Choice,
        process: u8,
        alpha: &[u8],
        beta: &[u8],
    ) -> usize
        requires { (length alpha.now ≤ MOST_PROCESSES) × (length beta.now ≤ MOST_PROCESSES) }
        ensures text { take result self.new.bytes ≡ compact_text (collision_data
            (record {
              choice = choice.now;
              process = process;
              alpha = alpha.now;
              beta = beta.now;
            })) }
        ensures within { result ≤ 149 }
    {
        let (a, b) = (choice.a.as_slice(), choice.b.as_slice());
        let at_choice = self.put(0, b'[');
        let behind_choice = self.put_triple(at_choice, choice.state.0, a, b);
        let at_process = self.put(behind_choice, b',');
        let behind_process = self.put_triple(at_process, process, alpha, beta);
        self.put(behind_process, b']')
    }
}
