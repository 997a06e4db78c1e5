//! Statuses: what a function knows, at one of its points, of the lock to which one path leads.
ghost use Rattle.std.specs.Prelude.{◌≡◌};
ghost use Rattle.tsa_rules.specs.Sets.{HasPlace};
ghost use Rattle.tsa_rules.specs.Statuses.{is_exclusive, is_free, is_takable_again, is_unheld, number_of, status_of};

/// What a function knows of a lock.
#[derive(Clone, Copy, Debug, PartialEq, Eq)]
pub enum Status {
    /// This function owns no hold of it, and nothing is promised of other threads.
    Free,
    /// This function owns one hold of it together with other readers: what the lock guards may be read.
    Shared,
    /// This function owns it alone, as often as the depth says: what the lock guards may be read and written. A lock that its holder may
    /// take again is owned up to 7 times, any other once.
    Exclusive(u32),
    /// A caller holds it, in either mode, for as long as the call lasts: what the lock guards may be read, and the lock is never given back
    /// here.
    Lent,
    /// A try has asked for it, and the answer stands unseen in the try variable of this number, from 0 in order of declaration: nothing may
    /// be touched yet.
    Pending(u32),
}

impl Status {
    /// Its number, which is its bit in a set and its place in a list of statuses.
    pub fn number(self) -> u32
        requires { HasPlace self }
        ensures { result ≡ number_of self }
    {
        match self {
            Status::Free => 0,
            Status::Shared => 1,
            Status::Exclusive(depth) => 1 + depth,
            Status::Lent => 9,
            Status::Pending(variable) => 10 + variable,
        }
    }

    /// The status of a number.
    pub fn of_number(number: u32) -> Status
        ensures { result ≡ status_of number }
    {
        match number {
            0 => Status::Free,
            1 => Status::Shared,
            2..=8 => Status::Exclusive(number - 1),
            9 => Status::Lent,
            _ => Status::Pending(number - 10),
        }
    }

    /// Whether it is free.
    pub fn is_free(self) -> bool
        ensures { result ≡ is_free self }
    {
        matches!(self, Status::Free)
    }

    /// Whether this function owns the lock alone.
    pub fn is_exclusive(self) -> bool
        ensures { result ≡ is_exclusive self }
    {
        matches!(self, Status::Exclusive(_))
    }

    /// Whether neither this function nor a caller is known to hold the lock.
    pub fn is_unheld(self) -> bool
        ensures { result ≡ is_unheld self }
    {
        matches!(self, Status::Free | Status::Pending(_))
    }

    /// Whether a lock that its holder may take again may be taken: nobody holds it here, or this function does, less often than it may.
    pub fn is_takable_again(self) -> bool
        ensures { result ≡ is_takable_again self }
    {
        match self {
            Status::Free => true,
            Status::Exclusive(depth) => depth < 7,
            _ => false,
        }
    }
}
