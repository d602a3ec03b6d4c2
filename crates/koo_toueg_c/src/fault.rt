//! Faults in numbers.

ghost use Rattle.std.specs.Prelude.{◌≡◌, ◌≤◌, ◌+◌, ℕ};
ghost use Rattle.kt_merge.specs.declared.fault.MergeFault.TheVariants as merge;
ghost use Rattle.koo_toueg_c.specs.Numbers.{cert_numbers, fault_numbers, fault_status, log_numbers, merge_numbers, merge_status, no_fault, of_cert, of_draw, of_log, text_fault, too_many_parts, unfit_numbers};

use kt_chain::CertTextFault;
use kt_draw::{DrawFault, PictureFault};
use kt_log_text::LogFault;
use kt_merge::{MergeFault, PartFault, RowFault};
use kt_spacetime::Unfit;

/// Why a call gives no answer, or no text, in numbers. A number is 0 where nothing is named.
#[repr(C)]
#[derive(Clone, Copy)]
pub struct KtFault {
    /// In which of the texts that the call was given, from 1, in their order.
    pub text: u32,
    /// 1 the text could not be read, 2 it is too long, 3 it is of another version; of a row or a record 4 its fields, 5 a word,
    /// 6 a number, 7 its place; 8 there was no memory; 9 `BadLog`, 10 `NoChain`; 11 there are no such rows, 12 there are too many
    /// of them for a picture; of a record of a part 13 its clock, 14 its process, 15 the name that it gives, 16 the message and 17
    /// the instance that it names, 18 it is behind the last row of a log, 19 it begins an instance behind the last one; 20 there are
    /// more than 64 parts; 0 no fault.
    pub what: u32,
    /// The row of a log, or the record of certificates, from 1.
    pub place: u32,
    /// The rule that the row breaks, 1 to 9, of `BadLog`.
    pub rule: u32,
    /// The instance, 1 to 4,096, of `NoChain`.
    pub inst: u32,
    /// The process without a chain, 0 to 63, of `NoChain`.
    pub process: u32,
}

/// Why a call gives no answer, or no text.
#[derive(Clone, Copy)]
pub(crate) enum Fault {
    /// The log's text.
    Log(LogFault),
    /// The certificates' text.
    Certificates(CertTextFault),
    /// There is no such picture of the log.
    Picture(PictureFault),
    /// There was no memory.
    Memory,
}

impl Fault {
    /// A fault of a log; want of memory is no fault of its text.
    pub(crate) fn of_log(fault: LogFault) -> Fault
        ensures { result ≡ of_log fault }
    {
        match fault {
            LogFault::Memory => Fault::Memory,
            _ => Fault::Log(fault),
        }
    }

    /// A fault of certificates; want of memory is no fault of their text.
    pub(crate) fn of_cert(fault: CertTextFault) -> Fault
        ensures { result ≡ of_cert fault }
    {
        match fault {
            CertTextFault::Memory => Fault::Memory,
            _ => Fault::Certificates(fault),
        }
    }

    /// A fault of a picture; want of memory is no fault of the log's text.
    pub(crate) fn of_draw(fault: DrawFault) -> Fault
        ensures { result ≡ of_draw fault }
    {
        match fault {
            DrawFault::Log(fault) => Fault::of_log(fault),
            DrawFault::Picture(why) => Fault::Picture(why),
        }
    }

    /// The status of a fault: 2 refused input, 3 a text that could not be read, 4 want of memory.
    pub(crate) fn status(&self) -> u32
        ensures exact { result ≡ fault_status self.now }
        ensures refused { 2 ≤ result }
        ensures few { result ≤ 4 }
    {
        match self {
            Fault::Log(LogFault::Read) | Fault::Certificates(CertTextFault::Read) => 3,
            Fault::Log(LogFault::Memory) | Fault::Certificates(CertTextFault::Memory) => 4,
            Fault::Memory => 4,
            _ => 2,
        }
    }
}

impl KtFault {
    /// No fault.
    pub(crate) fn none() -> KtFault
        ensures { result ≡ no_fault }
    {
        in_text(0, 0, 0)
    }

    /// A fault in numbers.
    pub(crate) fn of(fault: &Fault) -> KtFault
        ensures { result ≡ fault_numbers fault.now }
    {
        match fault {
            Fault::Log(fault) => KtFault::of_log(*fault),
            Fault::Certificates(fault) => KtFault::of_cert(*fault),
            Fault::Picture(PictureFault::NoRows) => in_text(1, 11, 0),
            Fault::Picture(PictureFault::TooLong) => in_text(1, 12, 0),
            Fault::Memory => in_text(0, 8, 0),
        }
    }

    // A fault of a log in numbers.
    fn of_log(fault: LogFault) -> KtFault
        ensures { result ≡ log_numbers fault }
    {
        match fault {
            LogFault::Read => in_text(1, 1, 0),
            LogFault::TooLong => in_text(1, 2, 0),
            LogFault::Version => in_text(1, 3, 0),
            LogFault::Fields(row) => in_text(1, 4, row.get()),
            LogFault::Word(row) => in_text(1, 5, row.get()),
            LogFault::Number(row) => in_text(1, 6, row.get()),
            LogFault::Memory => in_text(0, 8, 0),
        }
    }

    // A fault of certificates in numbers.
    fn of_cert(fault: CertTextFault) -> KtFault
        ensures { result ≡ cert_numbers fault }
    {
        match fault {
            CertTextFault::Read => in_text(2, 1, 0),
            CertTextFault::TooLong => in_text(2, 2, 0),
            CertTextFault::Fields(record) => in_text(2, 4, record),
            CertTextFault::Word(record) => in_text(2, 5, record),
            CertTextFault::Number(record) => in_text(2, 6, record),
            CertTextFault::Place(record) => in_text(2, 7, record),
            CertTextFault::Memory => in_text(0, 8, 0),
        }
    }

    /// Why parts have no log, in numbers.
    pub(crate) fn of_merge(why: &MergeFault) -> KtFault
        ensures { result ≡ merge_numbers why.now }
    {
        match why {
            MergeFault::Write | MergeFault::Memory => in_text(0, 8, 0),
            MergeFault::Part(p, fault) => KtFault::of_part(u32::from(p.get()) + 1, *fault),
            MergeFault::Row(p, record, fault) => {
                let what = match fault {
                    RowFault::Name => 15,
                    RowFault::NotSent => 16,
                    RowFault::NotBegun => 17,
                    RowFault::TooManyRows => 18,
                    RowFault::TooManyInstances => 19,
                };
                in_text(u32::from(p.get()) + 1, what, *record)
            }
        }
    }

    // The fault of a part, which is this text, in numbers.
    fn of_part(text: u32, fault: PartFault) -> KtFault
        ensures { (p : ℕ) → text ≡ p + 1 → result ≡ merge_numbers (merge.Part p fault) }
    {
        match fault {
            PartFault::Read => in_text(text, 1, 0),
            PartFault::TooLong => in_text(text, 2, 0),
            PartFault::Fields(record) => in_text(text, 4, record),
            PartFault::Word(record) => in_text(text, 5, record),
            PartFault::Number(record) => in_text(text, 6, record),
            PartFault::Clock(record) => in_text(text, 13, record),
            PartFault::Process(record) => in_text(text, 14, record),
            PartFault::Memory => in_text(0, 8, 0),
        }
    }

    /// There are more than 64 parts.
    pub(crate) fn of_many_parts() -> KtFault
        ensures { result ≡ too_many_parts }
    {
        in_text(65, 20, 0)
    }

    /// The status of parts that have no log.
    pub(crate) fn status_of_merge(why: &MergeFault) -> u32
        ensures exact { result ≡ merge_status why.now }
        ensures refused { 2 ≤ result }
        ensures few { result ≤ 4 }
    {
        match why {
            MergeFault::Write | MergeFault::Memory => 4,
            MergeFault::Part(_, PartFault::Memory) => 4,
            MergeFault::Part(_, PartFault::Read) => 3,
            MergeFault::Part(..) | MergeFault::Row(..) => 2,
        }
    }

    /// Why a log has no certificates, in numbers.
    pub(crate) fn of_unfit(why: Unfit) -> KtFault
        ensures { result ≡ unfit_numbers why }
    {
        match why {
            Unfit::BadLog(row, rule) => KtFault {
                rule: u32::from(rule.number()),
                ..in_text(1, 9, row.get())
            },
            Unfit::NoChain(inst, row, process) => KtFault {
                inst: u32::from(inst.get()),
                process: u32::from(process.get()),
                ..in_text(1, 10, row.get())
            },
        }
    }
}

// A fault that names a text and a place in it at most.
fn in_text(text: u32, what: u32, place: u32) -> KtFault
    ensures { result ≡ text_fault text what place }
{
    KtFault {
        text,
        what,
        place,
        rule: 0,
        inst: 0,
        process: 0,
    }
}
