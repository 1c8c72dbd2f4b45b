use cf_types::{CfId, Refusal, ShellCmd, ShellReply};

/// What a caller asks of a structure: a common command, or one on the content.
#[derive(Drop)]
pub enum Ask<C> {
    Shell(ShellCmd),
    Content(C),
}

/// What an entry of a journal tells: a call, or that the instance in a facility was lost.
#[derive(Drop)]
pub enum What<C> {
    Call(Ask<C>),
    Lost(CfId),
}

/// What is answered: to a common command, to one on the content, or why the call was refused.
#[derive(Drop)]
pub enum Reply<R> {
    Shell(ShellReply),
    Content(R),
    Refused(Refusal),
}
