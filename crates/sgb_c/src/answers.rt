//! What calls answer: numbers to C.
ghost use Rattle.std.specs.Prelude.{◌≡◌};
ghost use Rattle.sgb_c.specs.Answers.{number_of};
ghost use Rattle.sgb_c.specs.inner.Causes.{answer_of_filling};

use sgb_arrays::{Unmade, Wrong};
use sgb_expr::Unread;
use sgb_vec::Panic;

/// What a call answers.
#[derive(Clone, Copy)]
pub enum Answer {
    /// What was asked for is done.
    Done,
    /// The graph is refused with this code, or memory ran out.
    Panic(Panic),
    /// The text is too large to be read.
    TooLarge,
    /// An array has another length than it must have.
    Length,
    /// The vertices have no such field, or it holds no integers.
    Field,
    /// No uniform number can be below this bound.
    Bound,
    /// The handle holds another graph.
    AlreadyOpen,
    /// The handle holds no graph.
    NotOpen,
    /// Vertices of the run are none of the graph.
    Vertices,
    /// A name or the id that a graph is given is no text.
    Text,
    /// A graph is given more vertices or arcs than it may have.
    TooMany,
    /// The text is no expression; its longest prefix that begins one has this many bytes.
    BadExpression(u32),
}

impl Answer {
    // Its number.
    pub(crate) fn number(self) -> u64
        ensures { result ≡ number_of self }
    {
        match self {
            Answer::Done => 0,
            Answer::Panic(panic) => u64::from(panic.code()),
            Answer::TooLarge => 100,
            Answer::Length => 101,
            Answer::Field => 102,
            Answer::Bound => 103,
            Answer::AlreadyOpen => 104,
            Answer::NotOpen => 105,
            Answer::Vertices => 106,
            Answer::Text => 107,
            Answer::TooMany => 108,
            Answer::BadExpression(k) => 1000 + u64::from(k),
        }
    }

    // That of a call that fills arrays.
    pub(crate) fn of_filling(filling: Result<(), Wrong>) -> Answer
        ensures { result ≡ answer_of_filling filling }
    {
        match filling {
            Ok(()) => Answer::Done,
            Err(wrong) => Answer::from(wrong),
        }
    }
}

impl From<Panic> for Answer {
    ghost use Rattle.std.specs.Prelude.{◌≡◌};
    ghost use Rattle.sgb_c.specs.declared.answers.Answer.TheVariants as answer;

    ghost from_gives = { λ p a. a ≡ answer.Panic p };

    fn from(panic: Panic) -> Answer {
        Answer::Panic(panic)
    }
}

impl From<Unread> for Answer {
    ghost use Rattle.std.specs.Prelude.{◌≡◌};
    ghost use Rattle.sgb_c.specs.Answers.{answer_of_unread};

    ghost from_gives = { λ cause a. a ≡ answer_of_unread cause };

    fn from(cause: Unread) -> Answer {
        match cause {
            Unread::TooLarge => Answer::TooLarge,
            Unread::At(k) => Answer::BadExpression(k),
            Unread::NoRoom => Answer::Panic(Panic::NoRoom),
        }
    }
}

impl From<Wrong> for Answer {
    ghost use Rattle.std.specs.Prelude.{◌≡◌};
    ghost use Rattle.sgb_c.specs.Answers.{answer_of_wrong};

    ghost from_gives = { λ wrong a. a ≡ answer_of_wrong wrong };

    fn from(wrong: Wrong) -> Answer {
        match wrong {
            Wrong::Length => Answer::Length,
            Wrong::Field => Answer::Field,
            Wrong::Bound => Answer::Bound,
            Wrong::Vertices => Answer::Vertices,
            Wrong::NoRoom => Answer::Panic(Panic::NoRoom),
        }
    }
}

impl From<Unmade> for Answer {
    ghost use Rattle.std.specs.Prelude.{◌≡◌};
    ghost use Rattle.sgb_c.specs.Answers.{answer_of_unmade};

    ghost from_gives = { λ cause a. a ≡ answer_of_unmade cause };

    fn from(cause: Unmade) -> Answer {
        match cause {
            Unmade::Length => Answer::Length,
            Unmade::TooMany => Answer::TooMany,
            Unmade::Vertices => Answer::Vertices,
            Unmade::Text => Answer::Text,
            Unmade::NoRoom => Answer::Panic(Panic::NoRoom),
        }
    }
}
