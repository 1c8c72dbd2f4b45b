use cf_types::Refusal;

/// What is to be done with a call.
#[derive(Clone, Copy, PartialEq, Eq)]
pub enum Verdict {
    /// It is refused.
    Refuse(Refusal),
    /// It is a command on the content, for the engine.
    Content,
    /// It is COPY.
    Copy,
    /// It is a common command, for `Shell::act`.
    Act,
}

/// What judging a call comes to: why it is refused, if it is.
pub(crate) type Judged = Result<(), Refusal>;
