//! The faults that a request ends with, and the line that each prints.
ghost use Rattle.std.specs.Prelude.{◌≡◌, ◌≤◌, ◌+◌, ◌++◌, decimal, length};
ghost use Rattle.sgb_file.specs.Devices.{AppendsUnlessFailed, change, IsPut};
ghost use Rattle.sgb_requests.specs.Faults.{fault_line, status_of};

use sgb_file::{Failed, Sink, put_all};
use sgb_vec::{Filled, Panic};
use thiserror::Error;

// How the program is called, and what comes after that.
macro_rules! usage {
    ($end:literal) => {
        concat!(
            "usage: sgb (names|list) EXPR [--after NAME|--skip K], sgb save EXPR, sgb queen, sgb flip EXPR",
            $end,
        )
    };
}

const USAGE: &str = usage!("");

// A line with a number in it has at most this many bytes.
const MOST_BYTES: usize = 64;

/// Why a request ends without its whole answer. Its message is the line that `report` writes, without the newline.
#[derive(Clone, Copy, Debug, PartialEq, Eq, Error)]
pub enum Fault {
    /// The words are an invalid command line.
    #[error("{USAGE}")]
    Usage,
    /// The expression is too large to be read.
    #[error("sgb: expression too large")]
    TooLarge,
    /// The text is no expression; its longest prefix that begins one has this many bytes.
    #[error("sgb: bad expression at byte {0}")]
    Expr(u32),
    /// The graph is refused, or memory ran out.
    #[error("Something went wrong (panic code {})!", .0.code())]
    Panic(Panic),
    /// No vertex has the name.
    #[error("sgb: no such vertex")]
    NoVertex,
    /// Standard input failed.
    #[error("sgb: read fault")]
    Read,
    /// The output failed.
    #[error("sgb: write fault")]
    Write,
}

impl From<Panic> for Fault {
    ghost use Rattle.std.specs.Prelude.{◌≡◌};
    ghost use Rattle.sgb_requests.specs.declared.faults.Fault.TheVariants as fault;

    ghost from_gives = { λ p f. f ≡ fault.Panic p };

    fn from(panic: Panic) -> Fault {
        Fault::Panic(panic)
    }
}

/// The exit status of a fault: 1, 2 or 3.
pub fn status(fault: &Fault) -> u8
    ensures { result ≡ status_of fault.now }
{
    match fault {
        Fault::Panic(_) | Fault::NoVertex => 1,
        Fault::Usage | Fault::TooLarge | Fault::Expr(_) => 2,
        Fault::Read | Fault::Write => 3,
    }
}

/// Writes the fault's line, all of it at once, and returns its exit status. A sink that fails has a prefix of the line,
/// and the status is the same.
pub fn report<E: Sink>(fault: &Fault, errors: &mut E) -> u8
    ensures line { AppendsUnlessFailed (change E.written E.has_failed errors.old errors.new)
        (fault_line fault.now) }
    ensures status { result ≡ status_of fault.now }
{
    let _written = put_line(fault, errors);
    status(fault)
}

// Puts the line of a fault.
#[tactic(auto, unfolding(crate::specs::Faults::fault_line))]
fn put_line<E: Sink>(fault: &Fault, errors: &mut E) -> Result<(), Failed>
    ensures { IsPut (fault_line fault.now) (change E.written E.has_failed errors.old errors.new)
        result }
{
    match fault {
        Fault::Usage => put_all(errors, usage!("\n").as_bytes()),
        Fault::TooLarge => put_all(errors, b"sgb: expression too large\n"),
        Fault::Expr(k) => put_number(b"sgb: bad expression at byte ", *k, b"\n", errors),
        Fault::Panic(panic) => {
            let code = u32::from(panic.code());
            put_number(b"Something went wrong (panic code ", code, b")!\n", errors)
        }
        Fault::NoVertex => put_all(errors, b"sgb: no such vertex\n"),
        Fault::Read => put_all(errors, b"sgb: read fault\n"),
        Fault::Write => put_all(errors, b"sgb: write fault\n"),
    }
}

// Puts a number in decimal between two texts, all of it at once.
fn put_number<E: Sink>(
    before: &[u8],
    number: u32,
    after: &[u8],
    errors: &mut E,
) -> Result<(), Failed>
    requires { length before.now + length after.now ≤ 54 }
    ensures { IsPut (before.now ++ decimal number ++ after.now)
        (change E.written E.has_failed errors.old errors.new) result }
{
    let mut line: Filled<MOST_BYTES> = Filled::new();
    line.push_text(before);
    line.push_count(number);
    line.push_text(after);
    put_all(errors, line.bytes())
}
