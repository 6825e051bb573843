// Block protection: each block is locked, unlocked or tight, and three commands change that over a range of blocks.
#![tactic(auto)]

ghost use Rattle.std.specs.Prelude.{◌≡◌, ◌-◌, ◌<◌};
ghost use Rattle.onenand_protection.specs.Protection.{is_unlocked, lock_at, in_range, tight_among, hindered, obeyed, lock_made, table_made, table_after, protection_word};

// How a block is protected. Tight is lock-tight: locked, and so until the chip is reset.
#[derive(Clone, Copy, PartialEq, Eq, Debug)]
pub enum Lock {
    Locked,
    Unlocked,
    Tight,
}

impl Lock {
    // Whether the block takes programs and erases.
    pub fn is_unlocked(self) -> bool
        ensures { result ≡ is_unlocked self }
    {
        self == Lock::Unlocked
    }

    // What F24Eh shows once a command has made blocks so.
    pub fn protection_word(self) -> u16
        ensures { result ≡ protection_word self }
    {
        match self {
            Lock::Unlocked => 0x0004,
            Lock::Locked => 0x0002,
            Lock::Tight => 0x0001,
        }
    }
}

// The state of block b in a table, and locked past its end.
pub fn lock_at(table: &[Lock], b: usize) -> Lock
    ensures { result ≡ lock_at table.now b }
{
    table.get(b).copied().unwrap_or(Lock::Locked)
}

// Whether one of the blocks from a to below e is tight.
fn tight_among(locks: &[Lock], a: usize, e: usize) -> bool
    ensures { result ≡ tight_among (lock_at locks.now) a (e - a) }
{
    (a..e).any(|b| lock_at(locks, b) == Lock::Tight)
}

// A protection command: the state that it makes, and the first and last block of its range.
#[derive(Clone, Copy, PartialEq, Eq, Debug)]
pub struct Protection {
    pub lock: Lock,
    pub first: u16,
    pub last: u16,
}

// Stays: a command that is obeyed makes the whole table anew, past the n blocks of the array too, so a slice of n blocks
// would not do for both.
impl Protection {
    // Whether block b is in the range.
    fn covers(self, b: usize) -> bool
        ensures { result ≡ in_range self.first self.last b }
    {
        self.first as usize <= b && b <= self.last as usize
    }

    // What the command, obeyed, makes of block b.
    fn made(self, b: usize, old: Lock) -> Lock
        ensures { result ≡ lock_made self.lock self.first self.last b old }
    {
        if self.covers(b) {
            self.lock
        } else if self.lock == Lock::Unlocked && old != Lock::Tight {
            Lock::Locked
        } else {
            old
        }
    }

    // Whether a tight block, of n, stands in the way.
    fn is_hindered(self, locks: &[Lock], n: usize) -> bool
        ensures { result ≡ hindered n self.lock self.first self.last (lock_at locks.now) }
    {
        match self.lock {
            Lock::Unlocked | Lock::Locked => {
                tight_among(locks, self.first as usize, self.last as usize + 1)
            }
            Lock::Tight => tight_among(locks, 0, n),
        }
    }

    // Whether the command is obeyed by a chip of n blocks.
    fn is_obeyed(self, locks: &[Lock], n: usize) -> bool
        ensures { result ≡ obeyed n self.lock self.first self.last (lock_at locks.now) }
    {
        self.first <= self.last && (self.last as usize) < n && !self.is_hindered(locks, n)
    }

    // Makes the table anew, as the command does that is obeyed.
    fn make_table(self, locks: &mut [Lock])
        ensures { locks.new ≡ table_made self.lock self.first self.last locks.old }
    {
        for (b, lock) in locks.iter_mut().enumerate() {
            *lock = self.made(b, *lock);
        }
    }

    // Puts the command to the states of n blocks: says whether it was obeyed. One that is ignored does not fail.
    pub fn apply(self, locks: &mut [Lock], n: usize) -> bool
        ensures value { result ≡ obeyed n self.lock self.first self.last (lock_at locks.old) }
        ensures locks { locks.new ≡ table_after n self.lock self.first self.last locks.old }
    {
        let obeyed = self.is_obeyed(locks, n);
        if obeyed {
            self.make_table(locks);
        }
        obeyed
    }
}
