ghost use Rattle.std.specs.Prelude.{◌≡◌, ◌==◌, ◌&&◌};
ghost use Rattle.caller_walk.specs.Counts.{count_one, is_alike, is_call, is_due, is_outside, is_post, is_take, is_test, is_word};

use caller_slots::shown::scripts::Shown;
use caller_slots::shown::scripts::types::StrNo;

/// What is due next in a caller's transcript, whatever it answers.
#[derive(Clone, Copy)]
pub enum Due {
    /// The call with this number.
    Call {
        on: StrNo,
        no: u32,
    },
    /// A test of the bit at this index, which is in the vector.
    Test {
        on: StrNo,
        index: u32,
    },
    /// A test of this word, whose first bit is in the vector.
    Word {
        on: StrNo,
        word: u32,
    },
    /// That the index, or the word, isn't in the vector, which has so many bits.
    Outside {
        on: StrNo,
        index: u32,
        word: bool,
        len: u32,
    },
    /// A POST.
    Posted {
        on: StrNo,
    },
    /// A TAKE.
    Took {
        on: StrNo,
    },
}

// Whether two of a structure's parts are the same, and two numbers.
fn are_same(on: StrNo, at: StrNo, number: u32, other: u32) -> bool
    ensures { result ≡ ((on.0 == at.0) && (number == other)) }
{
    on.0 == at.0 && number == other
}

fn is_call(on: StrNo, no: u32, item: &Shown) -> bool
    ensures { result ≡ is_call on no item.now }
{
    match item {
        Shown::Call { on: at, no: number } => are_same(on, *at, no, *number),
        _ => false,
    }
}

fn is_test(on: StrNo, index: u32, item: &Shown) -> bool
    ensures { result ≡ is_test on index item.now }
{
    match item {
        Shown::Test {
            on: at,
            index: i,
            ..
        } => are_same(on, *at, index, *i),
        _ => false,
    }
}

fn is_word(on: StrNo, word: u32, item: &Shown) -> bool
    ensures { result ≡ is_word on word item.now }
{
    match item {
        Shown::Word {
            on: at,
            word: w,
            ..
        } => are_same(on, *at, word, *w),
        _ => false,
    }
}

fn is_alike(one: bool, other: bool) -> bool
    ensures { result ≡ is_alike one other }
{
    if one { other } else { !other }
}

// Whether two are the same, and two numbers.
fn are_as_long(word: bool, other: bool, len: u32, many: u32) -> bool
    ensures { result ≡ ((is_alike word other) && (len == many)) }
{
    is_alike(word, other) && len == many
}

fn is_outside(on: StrNo, index: u32, word: bool, len: u32, item: &Shown) -> bool
    ensures { result ≡ is_outside on index word len item.now }
{
    match item {
        Shown::BadIndex {
            on: at,
            index: i,
            word: w,
            len: many,
        } => are_both(
            are_same(on, *at, index, *i),
            are_as_long(word, *w, len, *many),
        ),
        _ => false,
    }
}

fn are_both(one: bool, other: bool) -> bool
    ensures { result ≡ (one && other) }
{
    one && other
}

fn is_post(on: StrNo, item: &Shown) -> bool
    ensures { result ≡ is_post on item.now }
{
    match item {
        Shown::Posted { on: at, .. } => on.0 == at.0,
        _ => false,
    }
}

fn is_take(on: StrNo, item: &Shown) -> bool
    ensures { result ≡ is_take on item.now }
{
    match item {
        Shown::Took { on: at, .. } => on.0 == at.0,
        _ => false,
    }
}

impl Due {
    /// Whether an item is what is due.
    pub fn is(self, item: &Shown) -> bool
        ensures { result ≡ is_due self item.now }
    {
        match self {
            Due::Call { on, no } => is_call(on, no, item),
            Due::Test { on, index } => is_test(on, index, item),
            Due::Word { on, word } => is_word(on, word, item),
            Due::Outside {
                on,
                index,
                word,
                len,
            } => is_outside(on, index, word, len, item),
            Due::Posted { on } => is_post(on, item),
            Due::Took { on } => is_take(on, item),
        }
    }
}

/// How many items are what is due, from the first on, and whether the next one isn't.
#[derive(Clone, Copy)]
pub struct Count {
    /// The items before the first that isn't what is due.
    pub fitting: usize,
    /// The next one isn't what is due, or there is none.
    pub differs: bool,
}

impl Count {
    /// One more is due.
    pub fn take(&mut self, items: &[Shown], due: Due)
        ensures { self.new ≡ count_one items.now self.old due }
    {
        if self.differs {
            return;
        }
        match items.get(self.fitting) {
            Some(item) if due.is(item) => self.fitting += 1,
            _ => self.differs = true,
        }
    }
}
