//! Pages of output: lines are put together where they leave.
//!
//! No line has more than 4,160 bytes: where fewer are free the page leaves, in one put. So each line stands on one
//! page, and a page that leaves before the end is larger than the buffer of std's `BufWriter`, which passes it on
//! without a copy. What was put and what the page holds are together what was handed to it (`IsPaged`).
ghost use Rattle.std.specs.Prelude.{◌≡◌, ◌≤◌, ◌+◌, [], false, length, IfErr};
ghost use Rattle.sgb_file.specs.Devices.{change};
ghost use Rattle.sgb.specs.Writing.{IsWritten};
ghost use Rattle.sgb.specs.inner.Pages.{IsPaged, page_bytes};
ghost use Rattle.sgb.specs.inner.Texts.{most_line_bytes};
// For the search alone.
ghost use Rattle.std.specs.Prelude.{◌<◌, ◌-◌, ◌++◌, take};

use super::write_bytes;
use sgb_file::Sink;
use sgb_requests::Fault;
use sgb_vec::Filled;

// A page of output has this many bytes: more than the buffer of std's BufWriter, so that a page goes past it.
const PAGE_BYTES: usize = 32_768;

// A line has at most this many bytes: those of a name, at most 4,095, and what the line of an arc has beside it.
const MOST_LINE_BYTES: usize = 4_160;

/// A page of output.
pub(super) type Page = Filled<PAGE_BYTES>;

/// Makes room on a page for a line: where there may be too little, what the page holds is put.
#[inline(always)]
pub(super) fn make_room<W: Sink>(page: &mut Page, out: &mut W) -> Result<(), Fault>
    requires { W.has_failed out.old ≡ false }
    ensures room { length page.new + most_line_bytes ≤ page_bytes }
    ensures paged { IsPaged page.old [] page.new (change W.written W.has_failed out.old out.new)
        result }
    ensures fault { IfErr result (λ f. f ≡ Fault.Write) }
{
    if page.len() > PAGE_BYTES - MOST_LINE_BYTES {
        return put_page(page, out);
    }
    Ok(())
}

/// Puts what a page holds, and leaves it empty.
pub(super) fn put_page<W: Sink>(page: &mut Page, out: &mut W) -> Result<(), Fault>
    requires { W.has_failed out.old ≡ false }
    ensures written { IsWritten page.old (change W.written W.has_failed out.old out.new) result }
    ensures fault { IfErr result (λ f. f ≡ Fault.Write) }
    ensures empty { page.new ≡ [] }
{
    if let Err(fault) = write_bytes(out, page.bytes()) {
        page.cut(0);
        return Err(fault);
    }
    page.cut(0);
    Ok(())
}
