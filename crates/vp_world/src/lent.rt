//! Inputs of sites, whose messages and calls are lent.

ghost use Rattle.std.specs.Prelude.{◌≡◌, IfOk};
ghost use Rattle.vp_base.specs.declared.event.Input.TheVariants as input;

use std::marker::Model;
use vp_base::{Call, CopyOf, Input, NoMemory};
use vp_mail::PackedMessage;

/// What comes, or what is lent of it.
#[derive(Drop)]
enum Form<'a> {
    Call { call: &'a Call },
    Message { sent: &'a PackedMessage },
    Tick,
    Probe,
}

/// An input of a site that an event of a schedule brings: a call from port 0, a message, a tick or a probe. What is large in it is lent,
/// so that nothing is copied for a stepper that has it from elsewhere.
#[derive(Drop)]
pub struct LentInput<'a> {
    form: Form<'a>,
}

impl<'a> Model for LentInput<'a> {
    ghost use Rattle.vp_model.specs.Types.{Input as GivenInput};
    ghost use Rattle.vp_world.specs.Lent.{lent_as};

    ghost Value = { GivenInput };

    ghost view = { λ i. lent_as i.form };
}

impl<'a> LentInput<'a> {
    /// Lends a call, which comes from port 0.
    pub fn call(call: &'a Call) -> LentInput<'a>
        ensures { result ≡ input.Call 0 call.now }
    {
        LentInput {
            form: Form::Call { call },
        }
    }

    /// Lends a message that was sent.
    pub fn message(sent: &'a PackedMessage) -> LentInput<'a>
        ensures { result ≡ input.Message sent.now.from sent.now.message }
    {
        LentInput {
            form: Form::Message { sent },
        }
    }

    /// A tick.
    pub fn tick() -> LentInput<'a>
        ensures { result ≡ input.Tick }
    {
        LentInput { form: Form::Tick }
    }

    /// A probe.
    pub fn probe() -> LentInput<'a>
        ensures { result ≡ input.Probe }
    {
        LentInput { form: Form::Probe }
    }

    /// Copies the input.
    pub fn copied(&self) -> Result<Input, NoMemory>
        ensures { IfOk result (λ input. input ≡ self.now) }
    {
        match &self.form {
            Form::Call { call } => Ok(Input::Call {
                from: 0,
                call: call.copy_of()?,
            }),
            Form::Message { sent } => Ok(Input::Message {
                from: sent.from(),
                message: sent.message()?,
            }),
            Form::Tick => Ok(Input::Tick),
            Form::Probe => Ok(Input::Probe),
        }
    }
}
