use cf_types::{Key16, Name16};

/// What a new list record is known by.
#[derive(Clone, Copy)]
pub(crate) enum Label {
    Name(Name16),
    Key(Key16),
}

/// What is done with a list lock.
#[derive(Clone, Copy)]
pub(crate) enum LockUse {
    Set,
    Reset,
    Test,
}
