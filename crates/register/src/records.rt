// Records: parents and reaches.
ghost use Rattle.std.specs.Prelude.{◌≡◌, ◌≤◌, ◌&&◌, nat_eq, nat_lt};

// A number past the last reach.
#[derive(Clone, Copy, Debug, PartialEq, Eq)]
pub struct PastLast {
    pub number: u8,
    pub ghost past: { 4 ≤ number },
}

// Which records a directive reaches from its own.
#[derive(Clone, Copy, Debug, PartialEq, Eq)]
pub enum Reach {
    // the record
    Itself,
    Children,
    // all of them, without the record
    Descendants,
    // the record with all its descendants
    Folder,
    // no record; question 7 lets no such number through
    Nothing(PastLast),
}

// The reach of a number; past the last it takes nothing. That is no error, since a stored ledger holds any number, which is brought back and
// stored again.
impl From<u8> for Reach {
    ghost use Rattle.register.specs.Records.{reach_of};

    ghost from_gives = { λ number reach. reach ≡ reach_of number };

    fn from(number: u8) -> Reach {
        match number {
            0 => Reach::Itself,
            1 => Reach::Children,
            2 => Reach::Descendants,
            3 => Reach::Folder,
            _ => Reach::Nothing(PastLast { number }),
        }
    }
}

impl From<Reach> for u8 {
    ghost use Rattle.register.specs.Records.{reach_number};

    ghost from_gives = { λ reach number. number ≡ reach_number reach };

    fn from(reach: Reach) -> u8 {
        match reach {
            Reach::Itself => 0,
            Reach::Children => 1,
            Reach::Descendants => 2,
            Reach::Folder => 3,
            Reach::Nothing(past) => past.number,
        }
    }
}

impl Reach {
    ghost use Rattle.register.specs.Records.{reach_takes};

    // Whether it takes a record that is the record itself, a child, a descendant. Three tests, and no structure of
    // them: each is named where it is made.
    pub fn takes(self, itself: bool, child: bool, descendant: bool) -> bool
        ensures { result ≡ reach_takes self itself child descendant }
    {
        match self {
            Reach::Itself => itself,
            Reach::Children => child,
            Reach::Descendants => descendant,
            Reach::Folder => itself || descendant,
            Reach::Nothing(_) => false,
        }
    }
}

// Whether record r is the parent of a record x in whose place for the parent p stands.
pub fn is_parent(r: usize, p: usize, x: usize) -> bool
    ensures { result ≡ nat_lt p x && nat_eq r p }
{
    p < x && r == p
}
