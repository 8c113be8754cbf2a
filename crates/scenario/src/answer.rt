//! What is answered to an action, in the words of a scenario.
ghost use Rattle.scenario.specs.Answers.{answer_text};
ghost use Rattle.std.specs.Prelude.{Some};

use clearing::cause::Denial;
use dealing::outcome::Outcome;
use dealing::refusal::Refusal;
use dealing::reply::Reply;
use std::fmt;

/// The answer to an action.
#[derive(Clone, Copy, PartialEq, Eq, Debug)]
pub enum Answer {
    /// Of calls: the reply to the last one.
    Reply(Reply),
    /// Of an account or a cap: whether the centre took it.
    Set(Result<(), Denial>),
}

/// `51 no=1 traded=0 resting=10 off=0`; `60`; `9`; `14 cause 3 depth 0`; `done`; `cause 6 depth 0`.
impl fmt::Display for Answer {
    ghost output = { λ answer. Some (answer_text answer) };

    fn fmt<W: fmt::Write>(&self, f: &mut fmt::Formatter<W>) -> fmt::Result {
        match self {
            Answer::Reply(Ok(outcome)) => write!(f, "{}", ShownOutcome(*outcome)),
            Answer::Reply(Err(refusal)) => write!(f, "{}", ShownRefusal(*refusal)),
            Answer::Set(Ok(())) => f.write_str("done"),
            Answer::Set(Err(denial)) => write!(f, "{}", ShownDenial(*denial)),
        }
    }
}

#[derive(Clone, Copy)]
struct ShownOutcome(Outcome);

impl fmt::Display for ShownOutcome {
    ghost use Rattle.scenario.specs.Replies.{outcome_text};
    ghost use Rattle.std.specs.Prelude.{Some};

    ghost output = { λ shown. Some (outcome_text shown.0) };

    fn fmt<W: fmt::Write>(&self, f: &mut fmt::Formatter<W>) -> fmt::Result {
        write!(f, "{}", self.0.number())?;
        match self.0 {
            Outcome::Suspended | Outcome::Resumed | Outcome::Opened => Ok(()),
            _ => {
                let of = self.0.figures();
                write!(
                    f,
                    " no={} traded={} resting={} off={}",
                    of.number, of.traded, of.resting, of.taken_off
                )
            }
        }
    }
}

#[derive(Clone, Copy)]
struct ShownRefusal(Refusal);

impl fmt::Display for ShownRefusal {
    ghost use Rattle.scenario.specs.Replies.{refusal_text};
    ghost use Rattle.std.specs.Prelude.{Some};

    ghost output = { λ shown. Some (refusal_text shown.0) };

    fn fmt<W: fmt::Write>(&self, f: &mut fmt::Formatter<W>) -> fmt::Result {
        write!(f, "{}", self.0.number())?;
        match self.0.denial() {
            Some(denial) => write!(f, " {}", ShownDenial(denial)),
            None => Ok(()),
        }
    }
}

#[derive(Clone, Copy)]
struct ShownDenial(Denial);

impl fmt::Display for ShownDenial {
    ghost use Rattle.scenario.specs.Replies.{denial_text};
    ghost use Rattle.std.specs.Prelude.{Some};

    ghost output = { λ shown. Some (denial_text shown.0) };

    fn fmt<W: fmt::Write>(&self, f: &mut fmt::Formatter<W>) -> fmt::Result {
        write!(f, "cause {} depth {}", self.0.cause.number(), self.0.depth)
    }
}
