//! Numbers in range: processes, labels, messages, rows and instances.

ghost use Rattle.std.specs.Prelude.{◌≡◌, ◌+◌, ◌^◌, ◌<◌, ◌≤◌, ◌↔◌, IsSome, IfSome};
ghost use Rattle.kt_base.specs.Numbers.{IsProcNo, IsLabel, IsMsgNo, IsRowNo, IsInstNo};

use std::fmt;
use std::marker::Model;

/// The number of a process: 0 to 63, in the order in which the processes are declared.
#[derive(Clone, Copy, Debug, PartialEq, Eq)]
pub struct ProcNo {
    number: u8,
}

impl Model for ProcNo {
    ghost use Rattle.std.specs.Prelude.{ℕ};
    ghost use Rattle.kt_base.specs.Numbers.{IsProcNo};

    ghost Value = { ℕ };

    ghost view = { λ p. p.number };

    ghost invariant = { λ p. IsProcNo p.number };

    ghost inverse = { λ n. record { number = n } };
}

impl ProcNo {
    /// How many processes there are at most.
    pub const COUNT: u8 = 64;

    /// The process with this number; None from 64 on.
    pub fn new(number: u8) -> Option<ProcNo>
        ensures valid { IsSome result ↔ IsProcNo number }
        ensures value { IfSome result (λ p. p ≡ number) }
    {
        if number < Self::COUNT {
            Some(ProcNo { number })
        } else {
            None
        }
    }

    /// The process of this number, 0 to 63.
    pub fn nth(number: u8) -> ProcNo
        requires { IsProcNo number }
        ensures { result ≡ number }
    {
        ProcNo { number }
    }

    /// The number, 0 to 63.
    pub fn get(self) -> u8
        ensures value { result ≡ self }
        ensures in_range { IsProcNo result }
    {
        self.number
    }

    /// The number as an index into a list with an element for each process, 0 to 63.
    pub fn index(self) -> usize
        ensures value { result ≡ self }
        ensures in_range { IsProcNo result }
    {
        usize::from(self.number)
    }
}

impl fmt::Display for ProcNo {
    ghost use Rattle.std.specs.Prelude.{Some};
    ghost use Rattle.std.specs.Fmt.{decimal};

    ghost output = { λ p. Some (decimal p) };

    fn fmt<W: fmt::Write>(&self, f: &mut fmt::Formatter<W>) -> fmt::Result {
        self.number.fmt(f)
    }
}

/// The label of an application message, 1 to 2^48 - 1; 0 stands for no label.
#[derive(Clone, Copy, Debug, PartialEq, Eq)]
pub struct Label {
    number: u64,
}

impl Model for Label {
    ghost use Rattle.std.specs.Prelude.{ℕ};
    ghost use Rattle.kt_base.specs.Numbers.{IsLabel};

    ghost Value = { ℕ };

    ghost view = { λ l. l.number };

    ghost invariant = { λ l. IsLabel l.number };

    ghost inverse = { λ n. record { number = n } };
}

impl Label {
    /// The greatest label.
    pub const MAX: u64 = 281_474_976_710_655;

    /// The label with this number; None from 2^48 on.
    pub fn new(number: u64) -> Option<Label>
        ensures valid { IsSome result ↔ IsLabel number }
        ensures value { IfSome result (λ l. l ≡ number) }
    {
        if number <= Self::MAX {
            Some(Label { number })
        } else {
            None
        }
    }

    /// The number, 0 to 2^48 - 1.
    pub fn get(self) -> u64
        ensures value { result ≡ self }
        ensures in_range { IsLabel result }
    {
        self.number
    }
}

/// The number of a message, which is the number of its `sent` row: 1 to 2^24.
#[derive(Clone, Copy, Debug, PartialEq, Eq, PartialOrd, Ord)]
pub struct MsgNo {
    number: u32,
}

impl Model for MsgNo {
    ghost use Rattle.std.specs.Prelude.{ℕ};
    ghost use Rattle.kt_base.specs.Numbers.{IsMsgNo};

    ghost Value = { ℕ };

    ghost view = { λ m. m.number };

    ghost invariant = { λ m. IsMsgNo m.number };

    ghost inverse = { λ n. record { number = n } };
}

impl MsgNo {
    /// The greatest number of a message.
    pub const MAX: u32 = 16_777_216;

    /// The message with this number; None for 0 and above 2^24.
    pub fn new(number: u32) -> Option<MsgNo>
        ensures valid { IsSome result ↔ IsMsgNo number }
        ensures value { IfSome result (λ m. m ≡ number) }
    {
        if number >= 1 && number <= Self::MAX {
            Some(MsgNo { number })
        } else {
            None
        }
    }

    /// The message that the row after so many rows sends, if it sends one.
    pub fn after(rows: usize) -> MsgNo
        requires { rows < 2 ^ 24 }
        ensures { result ≡ rows + 1 }
    {
        MsgNo {
            number: rows as u32 + 1,
        }
    }

    /// The number, 1 to 2^24.
    pub fn get(self) -> u32
        ensures value { result ≡ self }
        ensures in_range { IsMsgNo result }
    {
        self.number
    }

    /// The index of its row in a list of all rows, from 0.
    pub fn index(self) -> usize
        ensures value { result + 1 ≡ self }
        ensures in_range { IsMsgNo (result + 1) }
    {
        self.number as usize - 1
    }
}

impl fmt::Display for MsgNo {
    ghost use Rattle.std.specs.Prelude.{Some};
    ghost use Rattle.std.specs.Fmt.{decimal};

    ghost output = { λ m. Some (decimal m) };

    fn fmt<W: fmt::Write>(&self, f: &mut fmt::Formatter<W>) -> fmt::Result {
        self.number.fmt(f)
    }
}

/// The number of a row of a log: 1 to 2^24.
#[derive(Clone, Copy, Debug, PartialEq, Eq)]
pub struct RowNo {
    number: u32,
}

impl Model for RowNo {
    ghost use Rattle.std.specs.Prelude.{ℕ};
    ghost use Rattle.kt_base.specs.Numbers.{IsRowNo};

    ghost Value = { ℕ };

    ghost view = { λ r. r.number };

    ghost invariant = { λ r. IsRowNo r.number };

    ghost inverse = { λ n. record { number = n } };
}

impl RowNo {
    /// The greatest number of a row.
    pub const MAX: u32 = 16_777_216;

    /// The row with this number; None for 0 and above 2^24.
    pub fn new(number: u32) -> Option<RowNo>
        ensures valid { IsSome result ↔ IsRowNo number }
        ensures value { IfSome result (λ r. r ≡ number) }
    {
        if number >= 1 && number <= Self::MAX {
            Some(RowNo { number })
        } else {
            None
        }
    }

    /// The row after so many rows.
    pub fn after(rows: usize) -> RowNo
        requires { rows < 2 ^ 24 }
        ensures { result ≡ rows + 1 }
    {
        RowNo {
            number: rows as u32 + 1,
        }
    }

    /// The number, 1 to 2^24.
    pub fn get(self) -> u32
        ensures value { result ≡ self }
        ensures in_range { IsRowNo result }
    {
        self.number
    }
}

impl fmt::Display for RowNo {
    ghost use Rattle.std.specs.Prelude.{Some};
    ghost use Rattle.std.specs.Fmt.{decimal};

    ghost output = { λ r. Some (decimal r) };

    fn fmt<W: fmt::Write>(&self, f: &mut fmt::Formatter<W>) -> fmt::Result {
        self.number.fmt(f)
    }
}

/// The number of an instance of checkpoint or rollback, in order of beginning: 1 to 4,096.
#[derive(Clone, Copy, Debug, PartialEq, Eq)]
pub struct InstNo {
    number: u16,
}

impl Model for InstNo {
    ghost use Rattle.std.specs.Prelude.{ℕ};
    ghost use Rattle.kt_base.specs.Numbers.{IsInstNo};

    ghost Value = { ℕ };

    ghost view = { λ k. k.number };

    ghost invariant = { λ k. IsInstNo k.number };

    ghost inverse = { λ n. record { number = n } };
}

impl InstNo {
    /// The greatest number of an instance.
    pub const MAX: u16 = 4096;

    /// The instance with this number; None for 0 and above 4,096.
    pub fn new(number: u16) -> Option<InstNo>
        ensures valid { IsSome result ↔ IsInstNo number }
        ensures value { IfSome result (λ k. k ≡ number) }
    {
        if number >= 1 && number <= Self::MAX {
            Some(InstNo { number })
        } else {
            None
        }
    }

    /// The number, 1 to 4,096.
    pub fn get(self) -> u16
        ensures value { result ≡ self }
        ensures in_range { IsInstNo result }
    {
        self.number
    }

    /// Its index in a list of all instances in order of beginning, from 0.
    pub fn index(self) -> usize
        ensures value { result + 1 ≡ self }
        ensures in_range { IsInstNo (result + 1) }
    {
        usize::from(self.number) - 1
    }
}

impl fmt::Display for InstNo {
    ghost use Rattle.std.specs.Prelude.{Some};
    ghost use Rattle.std.specs.Fmt.{decimal};

    ghost output = { λ k. Some (decimal k) };

    fn fmt<W: fmt::Write>(&self, f: &mut fmt::Formatter<W>) -> fmt::Result {
        self.number.fmt(f)
    }
}
