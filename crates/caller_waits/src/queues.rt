ghost use Rattle.std.specs.Prelude.{◌≡◌, ◌++◌, ◌<◌, ◌≤◌, IfOk, OnOk, length};
ghost use Rattle.caller_slots.specs.RunShown.CfTypes.declared.limits.TheConstants.{STRUCTURES};
ghost use Rattle.caller_slots.specs.RunShown.Headline.{place_of};
ghost use Rattle.caller_waits.specs.Tests.{AreQueues, AreSmall, IsSmall, bit_waits, item_waits, queue_of, sure_after, surer, waits_here, word_waits};

use caller_items::slots::shown::scripts::Shown;
use caller_items::slots::shown::scripts::types::{ConnId, NoMemory, StrForm, StrNo};
use std::alloc::Global;
use vector_waits::{Queue, Wait};

// The test of one bit of a word, if it lies in the vector.
fn push_bit(
    queue: &mut Queue,
    vector: u32,
    at: u32,
    sure: u32,
    word: u32,
    value: u32,
    k: u32,
) -> Result<(), NoMemory>
    requires { k < 32 }
    ensures { OnOk result (queue.new ≡ record queue.old {
      waits = queue.old.waits ++ bit_waits vector at sure word value k;
    }) }
{
    let index = 32 * u64::from(word) + u64::from(k);
    if index < u64::from(vector) {
        return queue.push(Wait {
            at,
            sure,
            index: index as u32,
            bit: (value >> k) & 1 == 1,
            told: false,
        });
    }
    Ok(())
}

// The tests of a word's first bits, so many.
fn push_word(
    queue: &mut Queue,
    vector: u32,
    at: u32,
    sure: u32,
    word: u32,
    value: u32,
    many: u32,
) -> Result<(), NoMemory>
    requires { many ≤ 32 }
    ensures { OnOk result (queue.new ≡ record queue.old {
      waits = queue.old.waits ++ word_waits vector at sure word value 0 many;
    }) }
{
    for k in 0..many {
        push_bit(queue, vector, at, sure, word, value, k)?;
    }
    Ok(())
}

// The tests of an item.
fn push_item(queue: &mut Queue, vector: u32, sure: u32, item: &Shown) -> Result<(), NoMemory>
    ensures { OnOk result (queue.new ≡ record queue.old {
      waits = queue.old.waits ++ item_waits vector sure item.now;
    }) }
{
    match item {
        Shown::Test { index, bit, at, .. } => queue.push(Wait {
            at: *at,
            sure,
            index: *index,
            bit: *bit,
            told: false,
        }),
        Shown::Word { word, bits, at, .. } => {
            push_word(queue, vector, *at, sure, *word, *bits, 32)
        }
        Shown::Call { .. } | Shown::BadIndex { .. } | Shown::Posted { .. } | Shown::Took { .. } =>
            Ok(()),
    }
}

// The structure of an item.
fn place_of(item: &Shown) -> StrNo
    ensures { result ≡ place_of item.now }
{
    match item {
        Shown::Call { on, .. }
        | Shown::Test { on, .. }
        | Shown::Word { on, .. }
        | Shown::BadIndex { on, .. }
        | Shown::Posted { on, .. }
        | Shown::Took { on, .. } => *on,
    }
}

// The tests of an item, if it is one of this structure.
fn push_here(
    queue: &mut Queue,
    vector: u32,
    on: StrNo,
    sure: u32,
    item: &Shown,
) -> Result<(), NoMemory>
    ensures { OnOk result (queue.new ≡ record queue.old {
      waits = queue.old.waits ++ waits_here on vector sure item.now;
    }) }
{
    if place_of(item).0 == on.0 {
        return push_item(queue, vector, sure, item);
    }
    Ok(())
}

// What is seen complete behind an item of the structure.
fn surer(sure: u32, item: &Shown) -> u32
    ensures { result ≡ surer sure item.now }
{
    match item {
        Shown::Call { no: number, .. }
        | Shown::Posted { sure: number, .. }
        | Shown::Took { sure: number, .. } => sure.max(*number),
        Shown::Test { .. } | Shown::Word { .. } | Shown::BadIndex { .. } => sure,
    }
}

// What is seen complete of a structure behind an item of whatever structure.
fn sure_after(on: StrNo, sure: u32, item: &Shown) -> u32
    ensures { result ≡ sure_after on sure item.now }
{
    if place_of(item).0 == on.0 {
        return surer(sure, item);
    }
    sure
}

// A word is one of 32 bits.
fn word_fits(bits: u32)
    ensures { bits < 4294967296 }
{}

fn item_fits(item: &Shown)
    ensures { IsSmall item.now }
{
    match item {
        Shown::Word { bits, .. } => word_fits(*bits),
        Shown::Call { .. }
        | Shown::Test { .. }
        | Shown::BadIndex { .. }
        | Shown::Posted { .. }
        | Shown::Took { .. } => {}
    }
}

/// The tests that a caller's items show of one structure, whose vectors have so many bits: a test of
/// a word as tests of those of its bits that lie in the vector. Nothing is told of them yet.
///
/// # Errors
///
/// Want of memory.
pub fn queue_of(
    alloc: Global,
    vector: u32,
    on: StrNo,
    conn: ConnId,
    items: &[Shown],
) -> Result<Queue, NoMemory>
    ensures queue { IfOk result (λ queue. queue ≡ queue_of on vector conn items.now) }
    ensures small { IfOk result (λ queue. AreSmall items.now) }
{
    let mut queue = Queue::new(alloc, conn);
    let mut sure = 0;
    for item in items {
        item_fits(item);
        push_here(&mut queue, vector, on, sure, item)?;
        sure = sure_after(on, sure, item);
    }
    Ok(queue)
}

/// The tests that a caller's items show, a queue for each structure.
///
/// # Errors
///
/// Want of memory.
pub fn waits(
    alloc: Global,
    structures: &[StrForm],
    conn: ConnId,
    items: &[Shown],
) -> Result<Vec<Queue>, NoMemory>
    requires { length structures.now ≤ STRUCTURES }
    ensures { IfOk result (λ queues. AreQueues structures.now conn items.now queues.items) }
{
    let mut queues = Vec::new(alloc);
    let many = structures.len() as u8;
    for number in 0..many {
        let vector = structures[usize::from(number)].vector;
        queues.push(queue_of(alloc, vector, StrNo(number), conn, items)?)?;
    }
    Ok(queues)
}
