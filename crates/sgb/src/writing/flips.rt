//! Random numbers, written to a sink (GB_FLIP).
ghost use Rattle.std.specs.Prelude.{◌≡◌, ◌≢◌, ◌≤◌, ◌∷◌, ℕ, ℤ, suc, false, IfErr};
ghost use Rattle.sgb_file.specs.Devices.{change};
ghost use Rattle.sgb_graph.specs.Draws.{IsAtDraw, modulus, seed_of};
ghost use Rattle.sgb.specs.FlipAnswers.{accepted_draws, drawn_from, flip_answer, number_lines, number_within};
ghost use Rattle.sgb.specs.inner.FlipAnswers.{drawn};
ghost use Rattle.sgb.specs.inner.Texts.{number_line};
ghost use Rattle.sgb.specs.Writing.{IsEnded, IsWritten, effect};
ghost use Rattle.sgb.specs.inner.Pages.{IsPaged};

use super::pages::{Page, make_room, put_page};
use sgb_expr::FlipParams;
use sgb_file::Sink;
use sgb_graph::Flip;
use sgb_requests::Fault;
use sgb_vec::Panic;

// At most so many draws are thrown away, and so many numbers written.
const MOST_DRAWS: u32 = 1_000_000_000;

// A uniform draw is below this at most.
const MOST_BOUND: u32 = 0x8000_0000;

/// The draws that a flip asks for.
#[derive(Clone, Copy)]
pub(crate) struct Draws {
    pub start: i64,
    pub skip: u32,
    pub count: u32,
    pub m: u32,
}

/// Writes the numbers that a flip asks for, in decimal and one a line (GB_FLIP, gb_init_rand, gb_next_rand and
/// gb_unif_rand): of a generator started from `start`, after `skip` plain draws that are thrown away, `count` plain
/// draws where `m` is 0, else `count` uniform draws below `m`. No memory is taken.
///
/// `Bad` where `skip` or `count` is not from 0 to 1,000,000,000, or `m` is not from 0 to 2^31.
pub(crate) fn write_flip<W: Sink>(params: &FlipParams, out: &mut W) -> Result<(), Fault>
    requires { W.has_failed out.old ≡ false }
    ensures ended { IsEnded (flip_answer params.now)
        (effect W.written W.has_failed out.old out.new) result }
    ensures certain { IfErr result (λ f. f ≢ Fault.Panic Panic.NoRoom) }
{
    let draws = accepted_draws(params)?;
    write_draws(draws, out)
}

// The draws that a flip asks for, within their ranges.
fn accepted_draws(params: &FlipParams) -> Result<Draws, Panic>
    ensures { result ≡ accepted_draws params.now }
{
    let skip = number_within(MOST_DRAWS, params.skip)?;
    let count = number_within(MOST_DRAWS, params.count)?;
    let m = number_within(MOST_BOUND, params.m)?;
    Ok(Draws {
        start: params.start,
        skip,
        count,
        m,
    })
}

// The integer, where it is from 0 to the greatest. `Bad` where it is not.
fn number_within(greatest: u32, integer: i64) -> Result<u32, Panic>
    ensures { result ≡ number_within greatest integer }
{
    if 0 <= integer && integer <= i64::from(greatest) {
        Ok(integer as u32)
    } else {
        Err(Panic::Bad)
    }
}

// Writes the numbers drawn, each on a line.
fn write_draws<W: Sink>(draws: Draws, out: &mut W) -> Result<(), Fault>
    requires bound { draws.m ≤ modulus }
    requires sound { W.has_failed out.old ≡ false }
    ensures written { IsWritten (number_lines (drawn draws))
        (change W.written W.has_failed out.old out.new) result }
    ensures fault { IfErr result (λ f. f ≡ Fault.Write) }
{
    let mut flip = Flip::new(draws.start);
    flip.skip(u64::from(draws.skip));
    let mut page = Page::new();
    for _number in 0..draws.count {
        push_number_line(next_number(&mut flip, draws.m), &mut page, out)?;
    }
    put_page(&mut page, out)
}

// The next number: a plain draw where m is 0, else a uniform draw below m. Of the numbers from where the generator stood,
// it is the first one, and the others are those from where it stands then.
fn next_number(flip: &mut Flip, m: u32) -> u32
    requires { m ≤ modulus }
    ensures { (start : ℤ) (k : ℕ) → IsAtDraw start k flip.old.numbers flip.old.left
        → (next : ℕ) × IsAtDraw start next flip.new.numbers flip.new.left
        × ((count : ℕ) → drawn_from (seed_of start) m k (suc count) ≡ result
        ∷ drawn_from (seed_of start) m next count) }
{
    if m == 0 { flip.draw() } else { flip.below(m) }
}

// Hands the line of a number to a page: its digits and a newline.
fn push_number_line<W: Sink>(number: u32, page: &mut Page, out: &mut W) -> Result<(), Fault>
    requires { W.has_failed out.old ≡ false }
    ensures paged { IsPaged page.old (number_line number) page.new
        (change W.written W.has_failed out.old out.new) result }
    ensures fault { IfErr result (λ f. f ≡ Fault.Write) }
{
    make_room(page, out)?;
    page.push_number(number);
    page.push_text(b"\n");
    Ok(())
}
