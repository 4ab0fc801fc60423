//! What follows from the contracts of a client's call and of signals alone, as the contracts of functions that do nothing.

ghost use Rattle.vp_top.specs.Claims.{AnswersAreTold, SignalsAreDone};

use vp_client::answers_are_given;

/// Whoever makes a call gets the answer that is among the datagrams that the link has left, if no call of the link fails.
pub fn answers_are_told()
    ensures { AnswersAreTold }
{
    answers_are_given();
}

/// Whoever sends a signal gets the status 0, if no call of the link fails.
pub fn signals_are_done()
    ensures { SignalsAreDone }
{}
