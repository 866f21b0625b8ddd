// What a line shows before it is printed: its numbers, and how many bytes of the lent buffer follow them.
ghost use Rattle.std.specs.Prelude.{◌≡◌, ◌≤◌, length, take};

// The first `count` of the numbers stand in the line, then the first `bytes` of the lent buffer. A line without numbers is that
// of a malformed entry. An array and a count, since nothing is allocated; `numbers` answers them.
#[derive(Clone, Copy)]
pub struct Line {
    numbers: [u64; 4],
    count: usize,
    pub bytes: usize,
    ghost few: { count ≤ 4 },
}

impl Line {
    ghost use Rattle.replay_entries.specs.Entries.{Shows};

    // A line of these numbers alone.
    pub fn of(numbers: &[u64]) -> Line
        requires { length numbers.now ≤ 4 }
        ensures { Shows result numbers.now 0 }
    {
        let count = numbers.len();
        let mut held = [0; 4];
        held[..count].copy_from_slice(numbers);
        Line {
            numbers: held,
            count,
            bytes: 0,
        }
    }

    pub fn numbers(&self) -> &[u64]
        ensures { result.now ≡ take self.now.count self.now.numbers }
    {
        &self.numbers[..self.count]
    }
}
